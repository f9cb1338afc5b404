// Requests in bytes that are cut short, or announce more than there may be.
use super::lines::show;
use std::alloc::{AllocError, Global};
use std::io;
use wire::read_request;

fn show_request(rt: &HostRuntime, name: &str, bytes: &[u8]) -> io::Result<()> {
    match read_request(bytes) {
        Ok(request) => show(rt, name, &request.question),
        Err(refusal) => println!(rt; "{name}: {refusal}"),
    }
}

// No reports, and a question with an empty row and 255 lines of 255 terms.
fn hostile(heap: Global) -> Result<Vec<u8>, AllocError> {
    let mut bytes = Vec::new(heap);
    bytes.extend_from_slice(&[0, 0, 255])?;
    // 255 times the same bytes.
    for _ in 0..255 {
        bytes.extend_from_slice(&[7, 0, 0, 0, 255])?;
        bytes.extend_from_slice(&[0; 1275])?;
    }
    Ok(bytes)
}

pub fn show_all(rt: &HostRuntime) -> io::Result<()> {
    show_request(rt, "no bytes", &[])?;
    show_request(rt, "255 reports and nothing else", &[255])?;
    show_request(rt, "nine reports", &[9; 200])?;
    show_request(rt, "no report, and an empty row of no lines", &[0, 0, 0])?;
    show_request(rt, "a line without its count", &[0, 0, 1, 7, 0, 0, 0])?;
    show_request(rt, "a line without terms", &[0, 0, 1, 7, 0, 0, 0, 0])?;
    show_request(
        rt,
        "the same and bytes behind it",
        &[0, 0, 1, 7, 0, 0, 0, 0, 8, 9],
    )?;
    let many = hostile(rt.alloc())?;
    show_request(rt, "255 lines of 255 terms", &many)?;
    if let Some((_, front)) = many.split_last() {
        show_request(rt, "the same without its last byte", front)?;
    }
    Ok(())
}
