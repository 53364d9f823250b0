//! The laws of inputs that are sent and of what is sent of them, each on a function that does nothing.
ghost use Rattle.stream_model.specs.Cut.{IsPlan};
ghost use Rattle.scl_run.specs.InputClass.{IsLawful};
ghost use Rattle.send_job.specs.Settings.{Settings};
ghost use Rattle.send_job.specs.Job.{send_job};
ghost use Rattle.send_job.specs.SentStreams.{SentSoFar, SentAtEnd};

use pack_job::sent_inputs_are_lawful;
use sender_model::sending_is_told;

/// Inputs that are sent have one verdict each, and are read until it is certain.
pub fn sends_are_lawful()
    ensures { (settings : Settings) → IsPlan settings.plan → IsLawful (send_job settings).inputs }
{
    sent_inputs_are_lawful();
}

/// What a run has sent before each call that asks for input are the datagrams that the bytes read fix, as the link took
/// them; where it took each, at most 90,000 of these bytes are in none of them.
pub fn sent_so_far()
    ensures { SentSoFar }
{
    sending_is_told();
}

/// What a run has sent by its end are the datagrams that the bytes read fix, as the link took them, and at the end of
/// the input the cut of its codestreams; then the line with their counts is written.
pub fn sent_at_end()
    ensures { SentAtEnd }
{
    sending_is_told();
}
