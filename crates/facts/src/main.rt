// Reads a plan file on standard input and writes what is known of the rows of its last operator, or why it is refused.
#![tactic(auto)]

use writing::Writer;

// Whether there was more on standard input.
fn more() -> bool {
    io::read_full(0, &mut io::large_buffer()) != 0
}

// Reads what is left of standard input, so that whoever writes there can write all of it.
fn drain() {
    for _ in 0..1000000 {
        if !more() {
            return;
        }
    }
}

// An input that fills the buffer is answered by what the buffer has: it is proved that the first 65,536 bytes have the answer for all of it (long-input
// in facts_text), since no file longer than 20,856 bytes is accepted (plan_file_laws). No listing has more than 16,157 bytes.
fn main() {
    let mut file = io::large_buffer();
    let n = io::read_full(0, &mut file);
    if n == file.len() {
        drain();
    }
    let mut out = [0; 16384];
    let mut w = Writer::new(&mut out);
    facts_text::facts_text(&mut w, &file[..n]);
    io::write_all(1, w.bytes());
}
