// The words of a name, by the tables of spellings.
ghost use Rattle.std.specs.Prelude.{◌≡◌, map};
ghost use Rattle.msp_name.specs.Spellings.{env_texts, item_texts, crit_texts};
ghost use Rattle.msp_name.specs.Reading.{spelled};

use msp_class::{Crit, Env};

/// What can stand between the bars of a name.
#[derive(Clone, Copy)]
pub enum Item {
    Cut,
    Chains,
    Intree,
    Outtree,
    Prec,
    Heads,
    Unit,
    Equal,
    Short,
}

const ENVS: [(&[u8], Env); 16] = [
    (b"1", Env::One),
    (b"P2", Env::P2),
    (b"P3", Env::P3),
    (b"P", Env::P),
    (b"Q2", Env::Q2),
    (b"Q", Env::Q),
    (b"R2", Env::R2),
    (b"R", Env::R),
    (b"O2", Env::O2),
    (b"O3", Env::O3),
    (b"O", Env::O),
    (b"F2", Env::F2),
    (b"F3", Env::F3),
    (b"F", Env::F),
    (b"J2", Env::J2),
    (b"J", Env::J),
];

const ITEMS: [(&[u8], Item); 24] = [
    (b"pmtn", Item::Cut),
    (b"chains", Item::Chains),
    (b"chain", Item::Chains),
    (b"intree", Item::Intree),
    (b"in-tree", Item::Intree),
    (b"outtree", Item::Outtree),
    (b"out-tree", Item::Outtree),
    (b"prec", Item::Prec),
    (b"r", Item::Heads),
    (b"r_j", Item::Heads),
    (b"rj", Item::Heads),
    (b"p=1", Item::Unit),
    (b"p_j=1", Item::Unit),
    (b"pj=1", Item::Unit),
    (b"p_ij=1", Item::Unit),
    (b"pij=1", Item::Unit),
    (b"p=p", Item::Equal),
    (b"p_j=p", Item::Equal),
    (b"pj=p", Item::Equal),
    (b"p_ij=p", Item::Equal),
    (b"pij=p", Item::Equal),
    (b"n<=2", Item::Short),
    (b"n_j<=2", Item::Short),
    (b"nj<=2", Item::Short),
];

const CRITS: [(&[u8], Crit); 18] = [
    (b"Cmax", Crit::Cmax),
    (b"C_max", Crit::Cmax),
    (b"Lmax", Crit::Lmax),
    (b"L_max", Crit::Lmax),
    (b"fmax", Crit::Fmax),
    (b"f_max", Crit::Fmax),
    (b"sumC", Crit::SumC),
    (b"sumC_j", Crit::SumC),
    (b"sumwC", Crit::SumWC),
    (b"sumw_jC_j", Crit::SumWC),
    (b"sumU", Crit::SumU),
    (b"sumU_j", Crit::SumU),
    (b"sumwU", Crit::SumWU),
    (b"sumw_jU_j", Crit::SumWU),
    (b"sumT", Crit::SumT),
    (b"sumT_j", Crit::SumT),
    (b"sumwT", Crit::SumWT),
    (b"sumw_jT_j", Crit::SumWT),
];

/// What the table says of a word.
fn spelled<T: Copy>(table: &[(&[u8], T)], word: &[u8]) -> Option<T>
    ensures { result ≡ spelled (map (λ row. (row.0.now, row.1)) table.now) word.now }
{
    let mut rows = table;
    'rows: while let [row, more @ ..] = rows {
        if *word == *row.0 {
            return Some(row.1);
        }
        rows = more;
    }
    None
}

#[tactic(auto, unfolding(crate::specs::Spellings::env_texts))]
pub fn read_env(word: &[u8]) -> Option<Env>
    ensures { result ≡ spelled env_texts word.now }
{
    spelled(&ENVS, word)
}

#[tactic(auto, unfolding(crate::specs::Spellings::item_texts))]
pub fn read_item(word: &[u8]) -> Option<Item>
    ensures { result ≡ spelled item_texts word.now }
{
    spelled(&ITEMS, word)
}

#[tactic(auto, unfolding(crate::specs::Spellings::crit_texts))]
pub fn read_crit(word: &[u8]) -> Option<Crit>
    ensures { result ≡ spelled crit_texts word.now }
{
    spelled(&CRITS, word)
}
