ghost use Rattle.std.specs.Prelude.{◌≡◌, [], slice_get, unwrap_or};
ghost use Rattle.refusal_lines.specs.Lines as spec;

use portfolio::{Manifest, Named};
use y2k_base::Bytes;

/// The name of the text of that number, as the manifest writes it: the copybooks come before the programs. A text that
/// isn't there has no name.
pub fn text_name(manifest: &Manifest, number: u32) -> &[u8]
    ensures { result.now ≡ spec.text_name manifest.now number }
{
    let books = manifest.copybooks.items();
    let number = number as usize;
    if number < books.len() {
        book_name(books, number)
    } else {
        program_name(manifest.programs.items(), number - books.len())
    }
}

fn book_name(books: &[Named], number: usize) -> &[u8]
    ensures { result.now ≡ spec.book_name (slice_get books.now number) }
{
    match books.get(number) {
        Some(named) => named.name.items(),
        None => &[],
    }
}

fn program_name(programs: &[Bytes], number: usize) -> &[u8]
    ensures { result.now ≡ unwrap_or (slice_get programs.now number) [] }
{
    match programs.get(number) {
        Some(name) => name.items(),
        None => &[],
    }
}

/// The name of the seed file as the manifest writes it, and nothing where there is none.
pub fn seeds_name(manifest: &Manifest) -> &[u8]
    ensures { result.now ≡ spec.seeds_name manifest.now }
{
    match &manifest.seeds {
        Some(name) => name.items(),
        None => &[],
    }
}
