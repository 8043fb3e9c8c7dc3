//! The path of a database.
ghost use Rattle.std.specs.Prelude.{◌≡◌, ◌<◌, true, Ok, Some, None, if◌then◌else◌, refl};
ghost use Rattle.std.specs.Ordering.{eq_by_cmp, as_partial_cmp, nat_cmp};
ghost use Rattle.std.specs.Cmp.{partial_equiv_from_equiv, partial_order_from_total};
ghost use Rattle.std.specs.Cmp.Lexicographic.{slice_cmp, nat_list_cmp_total};
ghost use Rattle.std.proofs.lemmas.Cmp.{eq_by_cmp_equiv};
ghost use Rattle.std.specs.List.{list_all};
ghost use Rattle.slate_ids.specs.Ids.{is_db_path, is_path_char};

use crate::letters::text_of;
use crate::out_of_memory::OutOfMemory;
use std::cmp::Ordering;
use std::fmt;
use std::marker::Model;

/// The path of a database: 1 to 64 of the characters a to z, 0 to 9, `_` and `-`. Takes no memory.
#[derive(Clone, Copy, Debug)]
pub struct DbPath {
    block: [u8; 64],
    used: u8,
}

impl Model for DbPath {
    ghost use Rattle.std.specs.Prelude.{List, ℕ};

    ghost Value = { List ℕ };

    ghost use Rattle.slate_ids.specs.Padded.{IsPadded, letters_of, inside_of, inside_of-ok};

    ghost view = { letters_of };

    ghost invariant = { IsPadded };

    ghost inverse = { inside_of };

    ghost inverse_ok = { inside_of-ok };
}

fn is_char(c: u8) -> bool
    ensures { result ≡ is_path_char c }
{
    (c >= 97 && c <= 122) || (c >= 48 && c <= 57) || c == 95 || c == 45
}

fn all_chars(letters: &[u8]) -> bool
    ensures { result ≡ list_all is_path_char letters.now }
{
    letters.iter().all(|c| is_char(*c))
}

// Whether the letters may name a database.
fn is_path(letters: &[u8]) -> bool
    ensures { result ≡ is_db_path letters.now }
{
    !letters.is_empty() && letters.len() <= 64 && all_chars(letters)
}

// The path of letters that name one.
fn path_of(letters: &[u8]) -> DbPath
    requires { is_db_path letters.now ≡ true }
    ensures { result ≡ letters.now }
{
    let mut block = [0; 64];
    block[..letters.len()].copy_from_slice(letters);
    DbPath {
        block,
        used: letters.len() as u8,
    }
}

impl DbPath {
    /// The path of this text, where it is one. Takes no memory.
    pub fn from_text(text: &str) -> Result<Option<DbPath>, OutOfMemory>
        ensures { result ≡ Ok (if is_db_path text.now then Some text.now else None) }
    {
        Ok(DbPath::from_letters(text.as_bytes()))
    }

    /// The path of these letters, where they are one.
    pub(crate) fn from_letters(letters: &[u8]) -> Option<DbPath>
        ensures { result ≡ (if is_db_path letters.now then Some letters.now else None) }
    {
        if is_path(letters) {
            Some(path_of(letters))
        } else {
            None
        }
    }

    /// The letters.
    pub fn letters(&self) -> &[u8]
        ensures letters { result.now ≡ self.now }
        ensures name { is_db_path self.now ≡ true }
    {
        &self.block[..self.used as usize]
    }

    /// The letters as text.
    pub fn as_str(&self) -> &str
        ensures { result.now ≡ self.now }
    {
        text_of(self.letters())
    }
}

impl PartialEq for DbPath {
    ghost eq = { eq_by_cmp (slice_cmp nat_cmp) };

    ghost laws = { partial_equiv_from_equiv (eq_by_cmp_equiv nat_list_cmp_total) };

    fn eq(&self, other: &DbPath) -> bool {
        self.cmp(other).is_eq()
    }
}

impl Eq for DbPath {
    ghost laws = { eq_by_cmp_equiv nat_list_cmp_total };
}

impl PartialOrd for DbPath {
    ghost partial_cmp = { as_partial_cmp (slice_cmp nat_cmp) };

    ghost laws = { partial_order_from_total nat_list_cmp_total };

    fn partial_cmp(&self, other: &DbPath) -> Option<Ordering> {
        Some(self.cmp(other))
    }
}

/// Paths of databases order as their letters.
impl Ord for DbPath {
    ghost cmp = { slice_cmp nat_cmp };

    ghost total = { nat_list_cmp_total };

    ghost matches_partial_cmp = { λ _ _. refl };

    ghost matches_eq = { λ _ _. refl };

    fn cmp(&self, other: &DbPath) -> Ordering {
        self.letters().cmp(other.letters())
    }
}

impl fmt::Display for DbPath {
    ghost output = { λ letters. Some letters };

    fn fmt<W: fmt::Write>(&self, f: &mut fmt::Formatter<W>) -> fmt::Result {
        f.write_str(self.as_str())
    }
}
