// The lines of cues.
use crate::listing;
use std::process::Abort;
use std::test::Fail;

fn says(rt: &(impl Abort + AllocGlobal), bytes: &[u8], lines: &str) -> Result<(), Fail> {
    let found = listing(rt.alloc(), bytes)?;
    assert_eq!(rt; found.as_str(), lines);
    Ok(())
}

// An object with one read-only number.
#[test]
fn rows_and_end(rt: HostRuntime) -> Result<(), Fail> {
    let lamp = [
        32, 0, 0, 0, 15, 0, 0, 0, 1, 0, 4, 0, 2, 0, 0, 0, 7, 0, 0, 0, 1, 0, 0, 0, 4, 0, 0, 0, 4, 0,
        0, 0, 9, 0, 0, 0, 0, 0, 0, 0,
    ];
    says(
        &rt,
        &lamp,
        "0 0 15 40 0 8590196737\n1 24 4 16 7 9\nend 40\n",
    )
}

#[test]
fn empty(rt: HostRuntime) -> Result<(), Fail> {
    says(&rt, &[], "refused 1 0 1\n")
}

// A struct that holds a pod of no type.
#[test]
fn inside(rt: HostRuntime) -> Result<(), Fail> {
    let cue = [
        16, 0, 0, 0, 14, 0, 0, 0, 4, 0, 0, 0, 20, 0, 0, 0, 5, 0, 0, 0, 0, 0, 0, 0,
    ];
    says(&rt, &cue, "refused 3 8 2\n")
}

// A struct of 512 pods without a body: one row more than there is room for.
#[test]
fn too_many_rows(rt: HostRuntime) -> Result<(), Fail> {
    let mut bytes = Vec::new(rt.alloc());
    bytes.extend_from_slice(&[0, 16, 0, 0, 14, 0, 0, 0])?;
    for _ in 0..512 {
        bytes.extend_from_slice(&[0, 0, 0, 0, 1, 0, 0, 0])?;
    }
    says(&rt, &bytes, "refused 22 0 1\n")
}

#[test]
fn too_many_bytes(rt: HostRuntime) -> Result<(), Fail> {
    says(&rt, &[0; 65_537], "refused 14 0 1\n")
}
