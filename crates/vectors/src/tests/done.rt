//! Each command ends with status 0 where its input is accepted, no call fails and there is memory.
use super::failures::codestream_of_b;
use super::live::{Wire, run_live};
use super::relays::{After, inbound};
use super::*;

#[test]
fn each_command_ends_with_0(rt: HostRuntime) -> Result<(), Fail> {
    let alloc = rt.alloc();
    let codestream = codestream_of_b(&rt, alloc)?;
    let header = codestream.get(..90).ok_or("a header")?;
    let rows: [(&[&str], &[u8]); 13] = [
        (&["thin", "7"], &CAPTURE_B),
        (&["head"], header),
        (&["order"], header),
        (&["parse", "0", "3600"], &codestream),
        (
            &["pack", "110", "plain", "96", "1", "0", "0", "3600"],
            &codestream,
        ),
        (&["report", "96", "any", "16"], &CAPTURE_B),
        (&["rebuild", "96", "any", "16"], &CAPTURE_B),
        (&["deliver", "0-4"], &CAPTURE_B),
        (&["gen", "1", "8", "8", "1", "0", "444"], &[]),
        (&["trial", "7", "1", "0", "64", "7"], &[]),
        (
            &[
                "send", "110", "plain", "96", "1", "0", "0", "3600", "3", "l", "a",
            ],
            &codestream,
        ),
        (&["relay", "5", "3", "l", "a", "7", "1"], &[]),
        (&["recv", "96", "any", "16", "5", "3", "l"], &[]),
    ];
    for (row, (texts, input)) in rows.iter().enumerate() {
        let duct = DuctMem::new(alloc, input, &[], &[], &[], 100_000)?;
        let wire = Wire {
            entries: inbound(alloc, After::Nothing)?,
            links: Vec::new(alloc),
            bad_binds: &[],
        };
        let (status, out) = run_live(alloc, texts, duct, wire)?;
        assert_eq!(rt; status, 0, "in row {row}");
        assert!(rt; !out.written().is_empty(), "in row {row}");
        assert!(rt; out.noted().is_empty() && out.told(), "in row {row}");
    }
    Ok(())
}
