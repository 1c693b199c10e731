// A text as a table: a row is a line, ended by a newline.
ghost use Rattle.std.specs.Prelude.{◌≤◌, ◌≡◌, length};
ghost use Rattle.console.specs.Rows.{row_length, first_row, later_rows, row};

// The length of the first row.
fn row_length(text: &[u8]) -> usize
    ensures { (result ≡ row_length text.now) × (result ≤ length text.now) }
{
    text.iter().position(|b| *b == b'\n').unwrap_or(text.len())
}

fn first_row(text: &[u8]) -> &[u8]
    ensures { result.now ≡ first_row text.now }
{
    super::front(text, row_length(text))
}

fn later_rows(text: &[u8]) -> &[u8]
    ensures { result.now ≡ later_rows text.now }
{
    super::past(text, row_length(text) + 1)
}

// Row k of the text, counted from 0, without its newline; past the last one an empty row.
pub fn row(text: &[u8], k: u8) -> &[u8]
    ensures { result.now ≡ row text.now k }
{
    if k == 0 {
        first_row(text)
    } else {
        row(later_rows(text), k - 1)
    }
}
