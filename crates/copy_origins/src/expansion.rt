ghost use Rattle.std.specs.Prelude.{◌≡◌, [], ◌∷◌, ◌++◌, true, IfOk, IfErr};
ghost use Rattle.copy_origins.specs.Signs.{is};
ghost use Rattle.copy_origins.specs.declared.sign.Sign.TheVariants as Sign;
ghost use Rattle.copy_origins.specs.Expansion as spec;

use crate::books::{Book, Books, CopyFault, Expanded, are_in_order, book_with, holds_copy};
use crate::replacing::replace;
use crate::sign::is_copy;
use crate::statement::statement;
use std::alloc::Global;
use y2k_base::{List, Memory, Origin, Word};

/// The words with each COPY statement, its period included, replaced by its book's words.
///
/// A word COPY begins a statement wherever it stands, unless it stands in an earlier statement. The book is the
/// first one with the statement's key: the name or literal after COPY, after a library's name and a `/` where one is
/// given. Its words keep their origins. They are read from the left, and at each word the pairs of REPLACING are
/// tried in their order; where all words of `old` stand, equal in kind and text, those of `new` stand in their
/// place, with their origins in the COPY statement, and reading goes on after them. What a replacement brings isn't
/// expanded again.
pub fn expand(alloc: Global, words: &[Word], books: &Books) -> Result<Expanded, CopyFault>
    ensures ok { IfOk result (λ expanded. spec.IsExpansion words.now books.now.list expanded.words) }
    ensures only { IfOk result (λ expanded. spec.IsOnly words.now books.now.list expanded.words) }
    ensures err { IfErr result (spec.HasCopyFault words.now books.now.list) }
    ensures none { IfErr result (spec.HasNoExpansion words.now books.now.list) }
{
    let list = books.list.items();
    let ordered = are_in_order(list);
    let mut out = List::new(alloc);
    let mut rest = words;
    while let [word, more @ ..] = rest {
        match piece(alloc, word, more, list, ordered, &mut out) {
            Err(fault) => return Err(fault),
            Ok(next) => rest = next,
        }
    }
    Ok(Expanded { words: out })
}

/// Puts what the first word or statement gives at the end of `out`, and gives the words after it.
fn piece<'a>(
    alloc: Global,
    word: &Word,
    words: &'a [Word],
    books: &[Book],
    ordered: bool,
    out: &mut List<Word>,
) -> Result<&'a [Word], CopyFault>
    requires { ordered ≡ true → spec.are_in_order books.now ≡ true }
    ensures ok { IfOk result (λ rest. spec.IsStep (word.now ∷ words.now) books.now out.old out.new rest.now) }
    ensures err { IfErr result (spec.HasCopyFault (word.now ∷ words.now) books.now) }
{
    if is_copy(word) {
        match copy_piece(alloc, word, words, books, ordered, out) {
            Err(fault) => Err(fault),
            Ok(rest) => Ok(rest),
        }
    } else {
        match plain_piece(alloc, word, words, out) {
            Err(_) => Err(CopyFault::Memory),
            Ok(rest) => Ok(rest),
        }
    }
}

fn plain_piece<'a>(
    alloc: Global,
    word: &Word,
    words: &'a [Word],
    out: &mut List<Word>,
) -> Result<&'a [Word], CopyFault>
    ensures rest { IfOk result (λ rest. rest.now ≡ words.now) }
    ensures out { IfOk result (λ rest. out.new ≡ out.old ++ word.now ∷ []) }
    ensures err { IfErr result (λ e. e ≡ CopyFault.Memory) }
{
    match copy_of(alloc, word) {
        Err(_) => Err(CopyFault::Memory),
        Ok(copy) => match out.push(copy) {
            Err(_) => Err(CopyFault::Memory),
            Ok(()) => Ok(words),
        },
    }
}

/// The word again, its text taken over at once.
fn copy_of(alloc: Global, word: &Word) -> Result<Word, Memory>
    ensures { IfOk result (λ copy. copy ≡ word.now) }
{
    let mut text = List::new(alloc);
    text.append(word.text.items())?;
    Ok(Word {
        text,
        kind: word.kind,
        origin: word.origin,
    })
}

/// Puts what the statement at COPY gives at the end of `out`, and gives the words after it.
fn copy_piece<'a>(
    alloc: Global,
    copy: &Word,
    words: &'a [Word],
    books: &[Book],
    ordered: bool,
    out: &mut List<Word>,
) -> Result<&'a [Word], CopyFault>
    requires copy { is Sign.Copy copy.now ≡ true }
    requires ordered { ordered ≡ true → spec.are_in_order books.now ≡ true }
    ensures ok { IfOk result (λ rest. spec.IsStep (copy.now ∷ words.now) books.now out.old out.new rest.now) }
    ensures err { IfErr result (spec.HasCopyFault (copy.now ∷ words.now) books.now) }
{
    match statement(alloc, copy, words) {
        Err(_) => Err(CopyFault::Memory),
        Ok(read) => match read {
            None => Err(CopyFault::CopyShape(copy.origin)),
            Some((order, rest)) => match usable(order.key.items(), copy.origin, books, ordered) {
                Err(fault) => Err(fault),
                Ok(book) => match replace(alloc, order.pairs.items(), book.words.items(), out) {
                    Err(_) => Err(CopyFault::Memory),
                    Ok(()) => Ok(rest),
                },
            },
        },
    }
}

/// The first book with the key, if no COPY stands in it.
fn usable<'a>(
    key: &[u8],
    at: Origin,
    books: &'a [Book],
    ordered: bool,
) -> Result<&'a Book, CopyFault>
    requires { ordered ≡ true → spec.are_in_order books.now ≡ true }
    ensures ok { IfOk result (λ b. spec.IsUsable key.now books.now b.now) }
    ensures err { IfErr result (spec.IsUnusable key.now books.now at) }
{
    match book_with(key, books, ordered) {
        None => Err(CopyFault::CopyMissing(at)),
        Some(book) => {
            if holds_copy(book.words.items()) {
                return Err(CopyFault::NestedCopy(at));
            }
            Ok(book)
        }
    }
}
