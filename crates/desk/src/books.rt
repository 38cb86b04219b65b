// A book's bytes: out to a file and back, and damaged.
use anyhow::anyhow;
use std::{fs, io};
use table::{LONGEST_BOOK, Table};

// Writes the book out to a file, reads that back, and compares.
pub(crate) fn go_round(rt: &HostRuntime, book: &[u8], copy: &str) -> anyhow::Result<()> {
    let mut buffer = [0u8; LONGEST_BOOK];
    let length = Table::rewrite(book, &mut buffer)?;
    fs::write(rt, copy, &buffer[0..length])?;
    let back = fs::read(rt, copy)?;
    if back.as_slice() == book {
        println!(rt; "{copy}: {length} bytes written and read back, the same as the book's")?;
        return Ok(());
    }
    Err(anyhow!("the book came back changed"))
}

fn show_reading(rt: &HostRuntime, name: &str, book: &[u8]) -> io::Result<()> {
    match Table::new().read(book) {
        Ok(()) => println!(rt; "{name}: taken"),
        Err(fault) => println!(rt; "{name}: refused {fault}"),
    }
}

// Puts a byte of a book in place of another, where the book has it.
fn damage(book: &mut [u8], place: usize, byte: u8) {
    if let Some(old) = book.get_mut(place) {
        *old = byte;
    }
}

pub(crate) fn show_damages(rt: &HostRuntime, book: &[u8]) -> anyhow::Result<()> {
    let heap = rt.alloc();
    let short = book.iter().take(36).copied().collect::<Vec<u8>>(heap)?;
    show_reading(rt, "its first 36 bytes", short.as_slice())?;
    let mut entry = book.to_vec(heap)?;
    damage(entry.as_mut_slice(), 12, 4);
    show_reading(rt, "kind 4 in the third entry", entry.as_slice())?;
    let mut figure = book.to_vec(heap)?;
    damage(figure.as_mut_slice(), 37, 255);
    show_reading(rt, "a chance above certainty", figure.as_slice())?;
    Ok(())
}
