ghost use Rattle.std.specs.Prelude.{◌≡◌, map};
ghost use Rattle.cond_reader.specs.Table as spec;

use case_tables::same_text;

/// The value beside the first row with this word.
pub fn value_of<T: Copy>(mut rows: &[(&[u8], T)], word: &[u8]) -> Option<T>
    ensures { result ≡ spec.value_of (map (λ row. (row.0.now, row.1)) rows.entry.now) word.now }
{
    while let [row, rest @ ..] = rows {
        if same_text(row.0, word) {
            return Some(row.1);
        }
        rows = rest;
    }
    None
}
