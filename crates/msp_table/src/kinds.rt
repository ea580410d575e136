// The facts of each row: its kind, whether it keeps size, its text.
ghost use Rattle.std.specs.Prelude.{◌≡◌};
ghost use Rattle.msp_table.specs.Rows.{carries, keeps_size, kind_of, text_of};

use crate::row::{Row, RowKind};

/// Threshold exactly for the rows 15 and 16.
pub fn kind(row: Row) -> RowKind
    ensures { result ≡ kind_of row }
{
    match row.number() {
        15 | 16 => RowKind::Threshold,
        _ => RowKind::Carries,
    }
}

/// Whether the row keeps the numbers of an instance small.
pub fn keeps_size(row: Row) -> bool
    ensures { result ≡ keeps_size row }
{
    !matches!(row.number(), 26 | 27)
}

/// Whether the row carries schedules: each row but 15 and 16.
pub fn carries(row: Row) -> bool
    ensures { result ≡ carries row }
{
    match kind(row) {
        RowKind::Carries => true,
        RowKind::Threshold => false,
    }
}

/// The row's text in the table.
#[tactic(auto, unfolding(crate::specs::Rows::table, crate::specs::Rows::text_of))]
pub fn text(row: Row) -> &'static str
    ensures { result.now ≡ text_of row }
{
    match row.number() {
        1 => "none to chains",
        2 => "chains to intree",
        3 => "chains to outtree",
        4 => "intree to prec",
        5 => "outtree to prec",
        6 => "no r to r",
        7 => "p=1 to p=p",
        8 => "Cmax to Lmax",
        9 => "Lmax to fmax",
        10 => "sumC to sumwC",
        11 => "sumC to sumT",
        12 => "sumwC to sumwT",
        13 => "sumT to sumwT",
        14 => "sumU to sumwU",
        15 => "Lmax to sumU",
        16 => "Lmax to sumT",
        17 => "1 to P",
        18 => "P2 to P",
        19 => "P3 to P",
        20 => "P2 to Q2",
        21 => "P to Q",
        22 => "Q2 to Q",
        23 => "P2 to R2",
        24 => "P to R",
        25 => "R2 to R",
        26 => "Q to R",
        27 => "Q2 to R2",
        28 => "1 to F2",
        29 => "1 to O2",
        30 => "F2 to F3",
        31 => "O2 to O3",
        32 => "1 to F",
        33 => "1 to O",
        34 => "1 to J2 with n<=2",
        35 => "F2 to F",
        36 => "F3 to F",
        37 => "O2 to O",
        38 => "O3 to O",
        39 => "F2 to J2 with n<=2",
        40 => "F to J",
        41 => "J2 with n<=2 to J2",
        42 => "J2 with n<=2 to J with n<=2",
        43 => "J2 to J",
        44 => "J with n<=2 to J",
        45 => "intree to outtree by reversal",
        46 => "outtree to intree by reversal",
        47 => "r, Cmax to no r, Lmax",
        48 => "no r, Lmax to r, Cmax",
        49 => "pmtn to uncut",
        50 => "uncut to pmtn",
        51 => "intree to outtree by exchange",
        52 => "outtree to intree by exchange",
        53 => "p=p to general",
        _ => "p=p to p=1",
    }
}
