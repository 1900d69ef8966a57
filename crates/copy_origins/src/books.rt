ghost use Rattle.std.specs.Prelude.{◌≡◌, ◌≤◌, length, true, MatchOption, IfOk};
ghost use Rattle.copy_origins.specs.Keys as keys;
ghost use Rattle.copy_origins.specs.Keys.{IsPoint};
ghost use Rattle.copy_origins.specs.Expansion as spec;

use crate::sign::is_copy;
use std::alloc::Global;
use std::convert::From;
use y2k_base::{Bytes, List, Memory, Origin, Twin, Word};

/// A copybook, with the words that it is read as. A program names it by its key.
#[derive(Debug)]
pub struct Book {
    pub key: Bytes,
    pub words: List<Word>,
}

/// The copybooks of a portfolio.
#[derive(Debug, Drop)]
pub struct Books {
    pub list: List<Book>,
}

/// Words in which each COPY statement is replaced.
#[derive(Debug, Drop)]
pub struct Expanded {
    pub words: List<Word>,
}

/// Why words have no expansion, with the place of the word COPY of the first statement at fault.
#[derive(Clone, Copy, Debug, PartialEq, Eq)]
pub enum CopyFault {
    /// The word begins no COPY statement.
    CopyShape(Origin),
    /// No book has the key.
    CopyMissing(Origin),
    /// The book holds a COPY itself.
    NestedCopy(Origin),
    /// No memory was left.
    Memory,
}

impl From<Memory> for CopyFault {
    ghost use Rattle.copy_origins.specs.declared.books.CopyFault.TheVariants as fault;

    ghost from_gives = { λ _ e. e ≡ fault.Memory };

    fn from(_: Memory) -> CopyFault {
        CopyFault::Memory
    }
}

impl Drop for Book {
    fn drop(self) {
        let Book {
            key: _key,
            words: _words,
        } = self;
    }
}

impl Twin for Book {
    fn twin(&self, alloc: Global) -> Result<Book, Memory> {
        Ok(Book {
            key: self.key.twin(alloc)?,
            words: self.words.twin(alloc)?,
        })
    }
}

impl Twin for Books {
    fn twin(&self, alloc: Global) -> Result<Books, Memory> {
        Ok(Books {
            list: self.list.twin(alloc)?,
        })
    }
}

impl Twin for Expanded {
    fn twin(&self, alloc: Global) -> Result<Expanded, Memory> {
        Ok(Expanded {
            words: self.words.twin(alloc)?,
        })
    }
}

/// Whether no book stands before one of a lesser key.
pub fn are_in_order(books: &[Book]) -> bool
    ensures { result ≡ spec.are_in_order books.now }
{
    let mut rest = books;
    while let [book, more @ ..] = rest {
        if !is_in_order(book, more) {
            return false;
        }
        rest = more;
    }
    true
}

/// Whether a book's key is no greater than that of the next one.
fn is_in_order(book: &Book, more: &[Book]) -> bool
    ensures { result ≡ keys.is_in_order spec.key_of book.now more.now }
{
    match more {
        [] => true,
        [next, ..] => book.key.items().cmp(next.key.items()).is_le(),
    }
}

/// The first book with the key. Where the books are in order it is searched by halves.
pub fn book_with<'a>(key: &[u8], books: &'a [Book], ordered: bool) -> Option<&'a Book>
    requires { ordered ≡ true → spec.are_in_order books.now ≡ true }
    ensures { MatchOption result (spec.book_with key.now books.now ≡ None) (λ b. spec.book_with key.now books.now ≡ Some b.now) }
{
    if ordered {
        book_by_halves(key, books)
    } else {
        first_book(key, books)
    }
}

/// The first book with the key among books in order.
fn book_by_halves<'a>(key: &[u8], books: &'a [Book]) -> Option<&'a Book>
    requires { spec.are_in_order books.now ≡ true }
    ensures { MatchOption result (spec.book_with key.now books.now ≡ None) (λ b. spec.book_with key.now books.now ≡ Some b.now) }
{
    let place = first_not_before(key, books);
    if place == books.len() {
        return None;
    }
    if books[place].key.items() == key {
        Some(&books[place])
    } else {
        None
    }
}

/// The place of the first book whose key isn't less, among books in order; past the last one where all are less.
fn first_not_before(key: &[u8], books: &[Book]) -> usize
    requires { spec.are_in_order books.now ≡ true }
    ensures bound { result ≤ length books.now }
    ensures place { IsPoint spec.key_of books.now key.now result }
{
    let mut low = 0;
    let mut high = books.len();
    while low < high {
        let middle = low + (high - low) / 2;
        if is_before(&books[middle], key) {
            low = middle + 1;
        } else {
            high = middle;
        }
    }
    low
}

/// Whether the book's key is less than this one.
fn is_before(book: &Book, key: &[u8]) -> bool
    ensures { result ≡ keys.is_before spec.key_of key.now book.now }
{
    book.key.items().cmp(key).is_lt()
}

/// The first book with the key among any books.
fn first_book<'a>(key: &[u8], books: &'a [Book]) -> Option<&'a Book>
    ensures { MatchOption result (spec.book_with key.now books.now ≡ None) (λ b. spec.book_with key.now books.now ≡ Some b.now) }
{
    let mut rest = books;
    while let [book, more @ ..] = rest {
        if book.key.items() == key {
            return Some(book);
        }
        rest = more;
    }
    None
}

/// Whether a word COPY stands among the words.
pub fn holds_copy(words: &[Word]) -> bool
    ensures { result ≡ spec.holds_copy words.now }
{
    let mut rest = words;
    while let [word, more @ ..] = rest {
        if is_copy(word) {
            return true;
        }
        rest = more;
    }
    false
}
