// What an input prints.
use text::Lines;

// Prints a variant's name, then the rows after the names line of its text with a bar between two, or what says that there is none.
pub(crate) fn show(rt: &impl Print, name: &str, printed: &[u8], none: &[u8]) {
    let mut rows = Lines::new(printed).skip(1);
    let _ = print!(rt; "{name}: ");
    let _ = rt.write_all(rows.next().unwrap_or(none));
    for row in rows {
        let _ = rt.write_all(b" | ");
        let _ = rt.write_all(row);
    }
    let _ = println!(rt);
}
