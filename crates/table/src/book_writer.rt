// Writing a table book into the first bytes of a buffer. Each function asks for the room itself: a struct that had the buffer
// would have to speak of the bytes that it leaves when the loan ends.
ghost use Rattle.std.specs.Prelude.{◌≡◌, ◌+◌, ◌≤◌, length};
ghost use Rattle.table.specs.Book.{placed, written, entry_place, body_place, book_length, entry_bytes, contents_bytes, body_bytes, bodies_bytes};
ghost use Rattle.table.specs.Table.{tabled};

use crate::book::{EDITION, body_place, entry_place};
use crate::rows::Rows;
use basis::kind::Kind;

// Puts bytes into a buffer at a place.
fn put(buffer: &mut [u8], place: usize, bytes: &[u8])
    requires { place + length bytes.now ≤ length buffer.old }
    ensures { buffer.new ≡ placed buffer.old place bytes.now }
{
    buffer[place..place + bytes.len()].copy_from_slice(bytes);
}

fn put_entry(buffer: &mut [u8], rows: &Rows, kind: Kind)
    requires { book_length rows.now.final_age ≤ length buffer.old }
    ensures { buffer.new ≡ placed buffer.old (entry_place kind) (entry_bytes rows.now.final_age kind) }
{
    let [count_high, count_low] = (kind.count(rows.final_age) as u16).to_be_bytes();
    let [body_high, body_low] = (body_place(kind, rows.final_age) as u16).to_be_bytes();
    let entry = [kind.rank(), count_high, count_low, body_high, body_low];
    put(buffer, entry_place(kind), &entry);
}

// Its loop and that of the bodies are no one loop over a function value, whose clause would have to tell of every buffer
// between.
fn put_contents(buffer: &mut [u8], rows: &Rows)
    requires { book_length rows.now.final_age ≤ length buffer.old }
    ensures { buffer.new ≡ placed buffer.old 2 (contents_bytes rows.now.final_age) }
{
    for kind in Kind::ALL {
        put_entry(buffer, rows, kind);
    }
}

// The loop counts the ages, since each figure is asked for by its age and put at a place that the age tells.
fn put_body(buffer: &mut [u8], rows: &Rows, kind: Kind)
    requires { book_length rows.now.final_age ≤ length buffer.old }
    ensures { buffer.new ≡ placed buffer.old (body_place rows.now.final_age kind) (body_bytes (tabled rows.now) kind) }
{
    let place = body_place(kind, rows.final_age);
    for age in 0..kind.count(rows.final_age) {
        put(
            buffer,
            place + 4 * age as usize,
            &rows.figure(kind, age).to_be_bytes(),
        );
    }
}

fn put_bodies(buffer: &mut [u8], rows: &Rows)
    requires { book_length rows.now.final_age ≤ length buffer.old }
    ensures { buffer.new ≡ placed buffer.old 37 (bodies_bytes (tabled rows.now)) }
{
    for kind in Kind::ALL {
        put_body(buffer, rows, kind);
    }
}

// Puts the book of the rows at the buffer's beginning.
pub(crate) fn put_book(buffer: &mut [u8], rows: &Rows)
    requires { book_length rows.now.final_age ≤ length buffer.old }
    ensures { buffer.new ≡ written (tabled rows.now) buffer.old }
{
    put(buffer, 0, &[EDITION, rows.final_age as u8]);
    put_contents(buffer, rows);
    put_bodies(buffer, rows);
}
