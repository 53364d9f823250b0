//! The main header at the front of an input.
ghost use Rattle.std.specs.Prelude.{◌≡◌, List};
ghost use Rattle.scl_outside.specs.Events.{Event};
ghost use Rattle.scl_cli.specs.Finding.{Finds};

use j2k_markers::{Head, HeadFault, HeadWhy, read_head};
use scl_outside::{Duct, ReadOut};
use scl_run::{Ending, Reason, Refusal};

/// The ending of a run whose input doesn't begin with a main header.
fn refused(fault: HeadFault) -> Ending
    ensures { result ≡ Ending.Refused (record { at = fault.at; reason = Reason.Header fault.why }) }
{
    Ending::Refused(Refusal {
        at: u64::from(fault.at),
        reason: Reason::Header(fault.why),
    })
}

/// The main header at the front of the input, as soon as it is whole; at most 8,192 bytes are read. Or the ending of a
/// run without one: a read failed, or the input is refused.
pub fn find_head<D: Duct>(out: &mut D) -> Result<Head, Ending>
    ensures { (es : List Event) × Finds (D.meaning out.old) (D.meaning out.new) result es }
{
    let mut bytes = [0u8; 8192];
    let mut len = 0;
    loop {
        let fault = match read_head(&bytes[..len]) {
            Ok(head) => return Ok(head),
            Err(fault) => fault,
        };
        if fault.why != HeadWhy::Cut {
            return Err(refused(fault));
        }
        match out.read(&mut bytes[len..]) {
            ReadOut::Got(count) => len += count,
            ReadOut::End => return Err(refused(fault)),
            ReadOut::Failed => return Err(Ending::ReadFault),
        }
    }
}
