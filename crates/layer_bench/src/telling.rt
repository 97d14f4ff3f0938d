//! What is printed.
use anyhow::Result;

/// Prints one to four counts on a line. Takes no memory.
pub(crate) fn tell<R: Print>(rt: &R, counts: &[usize]) -> Result<()> {
    match counts {
        [one] => println!(rt; "{one}")?,
        [one, two] => println!(rt; "{one} {two}")?,
        [one, two, three] => println!(rt; "{one} {two} {three}")?,
        [one, two, three, four] => println!(rt; "{one} {two} {three} {four}")?,
        _ => {}
    }
    Ok(())
}
