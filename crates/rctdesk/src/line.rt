// What counts of a line of a script.
use console::lines::char_at;

// How many of a line's characters count: the carriage return of a line that ends in both does not.
pub fn without_return(line: &[u8], kept: usize) -> usize {
    if kept > 0 {
        if char_at(line, kept - 1) == b'\r' {
            return kept - 1;
        }
    }
    kept
}

fn is_blank(c: u8) -> bool {
    matches!(c, b' ' | b'\t')
}

// Whether a line is passed over: it is empty, but for blanks, or a comment.
pub fn says_nothing(line: &[u8]) -> bool {
    for c in line {
        if !is_blank(*c) {
            return matches!(*c, b'\n' | b'#');
        }
    }
    true
}
