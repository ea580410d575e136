// The report of `rows`.
ghost use Rattle.std.specs.Prelude.{◌≡◌, ◌+◌, ◌≤◌, ◌++◌, length};
ghost use Rattle.msp_report.specs.RowsText.{kind_text, table_line, rows_report};

use msp_name::ShortText;
use msp_table::{ROWS, Row, RowKind, kind, text};

/// The room for the report of `rows`, in bytes.
pub const ROWS_ROOM: usize = 2048;

fn kind_word(kind: RowKind) -> &'static [u8]
    ensures { result.now ≡ kind_text kind }
{
    match kind {
        RowKind::Carries => b"carries",
        RowKind::Threshold => b"threshold",
    }
}

/// Puts the line of a row: its number, kind and text.
fn put_row(out: &mut ShortText<ROWS_ROOM>, row: Row)
    requires { length out.old + length (table_line row) ≤ ROWS_ROOM }
    ensures { out.new ≡ out.old ++ table_line row }
{
    let mut digits = itoa::Buffer::new();
    out.put(b"row ");
    out.put(digits.format(row.number()).as_bytes());
    out.put(b" ");
    out.put(kind_word(kind(row)));
    out.put(b" ");
    out.put(text(row).as_bytes());
    out.put(b"\n");
}

/// The report of `rows`: a line `row K KIND TEXT` for each row of the table. It takes no memory.
pub fn rows_text() -> ShortText<ROWS_ROOM>
    ensures { result ≡ rows_report }
{
    let mut out = ShortText::new();
    for k in 1..=ROWS {
        put_row(&mut out, Row::new(k).unwrap());
    }
    out.put(b"end\n");
    out
}
