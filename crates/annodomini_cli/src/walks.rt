use crate::annodomini;
use crate::fixture::program;
use shelf::{MemoryShelf, MemorySink, Shelf};
use std::alloc::Global;
use std::test::Fail;

/// One step of a walk: a verb with its words, and the lines behind them, each with its line feed but the last.
#[derive(Clone, Copy)]
pub(crate) struct Step<'a> {
    pub(crate) verb: &'a str,
    pub(crate) words: &'a str,
    pub(crate) text: &'a str,
}

/// The first step of a walk, and the steps behind it.
pub(crate) fn next_step(walk: &str) -> (Step<'_>, &str) {
    let (step, more) = walk.split_once("\n@").unwrap_or((walk, ""));
    let (head, text) = step.split_once("\n").unwrap_or((step, ""));
    let (verb, words) = head.split_once(" ").unwrap_or((head, ""));
    (Step { verb, words, text }, more)
}

/// Lines, each with its line feed.
fn whole(alloc: Global, text: &str) -> Result<String, Fail> {
    let mut whole = String::from_str(alloc, text)?;
    if !text.is_empty() {
        whole.push_str("\n")?;
    }
    Ok(whole)
}

/// The program of that name with the entries and, behind a line `--`, the statements of a step.
fn framed(alloc: Global, name: &str, text: &str) -> Result<String, Fail> {
    let lines = whole(alloc, text)?;
    let (entries, statements) = lines
        .as_str()
        .split_once("--\n")
        .unwrap_or((lines.as_str(), ""));
    let text = program(alloc, name, entries, statements)?;
    Ok(text)
}

/// The manifest of one program with its job J, and lines of its own.
fn manifest_of(alloc: Global, name: &str, lines: &str) -> Result<String, Fail> {
    let text = format!(in alloc;
        "version = 1\npivot = 50\nprograms = [\"{name}.cbl\"]\nseeds = \"seeds.csv\"\n{lines}[jobs]\nJ = [\"{name}\"]\n"
    )?;
    Ok(text)
}

/// Puts what a step stands for on the shelf, and answers whether it is a step that does.
pub(crate) fn puts(alloc: Global, shelf: &mut MemoryShelf, step: Step) -> Result<bool, Fail> {
    let lines = whole(alloc, step.text)?;
    match step.verb {
        "put" => shelf.put(step.words, lines.as_bytes())?,
        "raw" => shelf.put(step.words, step.text.as_bytes())?,
        "seeds" => {
            let rows = format!(in alloc; "program,item,kind,digit\n{lines}")?;
            shelf.put("seeds.csv", rows.as_bytes())?;
        }
        "manifest" => {
            let text = manifest_of(alloc, step.words, lines.as_str())?;
            shelf.put("m.toml", text.as_bytes())?;
        }
        "program" => {
            let words = step.words;
            let name = format!(in alloc; "{words}.cbl")?;
            let text = framed(alloc, words, step.text)?;
            shelf.put(name.as_str(), text.as_bytes())?;
        }
        _ => return Ok(false),
    }
    Ok(true)
}

/// The status of a call of the program and what it prints, where the put of that number fails.
pub(crate) fn call(
    alloc: Global,
    shelf: &mut MemoryShelf,
    words: &str,
    sink_fault: u64,
) -> Result<(u8, Vec<u8>), Fail> {
    let mut out = MemorySink::new(alloc)?;
    out.fail_on(sink_fault)?;
    let mut list = Vec::new(alloc);
    let mut rest = words;
    for _ in 0..words.len() {
        let (word, more) = rest.split_once(" ").unwrap_or((rest, ""));
        if !word.is_empty() {
            list.push(String::from_str(alloc, word)?)?;
        }
        rest = more;
    }
    let status = annodomini(alloc, list.as_slice(), shelf, &mut out);
    let printed = out.bytes().to_vec(alloc)?;
    Ok((status, printed))
}

/// Whether a call has the status that stands before its words, and prints these lines.
fn answers(alloc: Global, shelf: &mut MemoryShelf, step: Step) -> Result<bool, Fail> {
    let (wanted, words) = step.words.split_once(" ").unwrap_or((step.words, ""));
    let lines = whole(alloc, step.text)?;
    let (status, printed) = call(alloc, shelf, words, 0)?;
    let got = format!(in alloc; "{status}")?;
    Ok(got.as_str() == wanted && printed.as_slice() == lines.as_bytes())
}

/// Whether a file is there and has these bytes, at most 4,000.
pub(crate) fn is_held(
    alloc: Global,
    shelf: &mut MemoryShelf,
    name: &str,
    wanted: &[u8],
) -> Result<bool, Fail> {
    let mut bytes = vec![in alloc; 0u8; 4000]?;
    match shelf.size(name) {
        Ok(Some(size)) => match shelf.read(name, 0, bytes.as_mut_slice()) {
            Ok(count) => {
                bytes.truncate(count);
                Ok(size == wanted.len() as u64 && bytes.as_slice() == wanted)
            }
            Err(_) => Ok(false),
        },
        _ => Ok(false),
    }
}

fn is_absent(shelf: &mut MemoryShelf, name: &str) -> bool {
    match shelf.size(name) {
        Ok(None) => true,
        _ => false,
    }
}

/// Whether what a step says of the files or of a call is so.
fn holds(alloc: Global, shelf: &mut MemoryShelf, step: Step) -> Result<bool, Fail> {
    match step.verb {
        "call" => answers(alloc, shelf, step),
        "lacks" => Ok(is_absent(shelf, step.words)),
        "bytes" => is_held(alloc, shelf, step.words, step.text.as_bytes()),
        "holds" => {
            let lines = whole(alloc, step.text)?;
            is_held(alloc, shelf, step.words, lines.as_bytes())
        }
        "written" => {
            let words = step.words;
            let name = format!(in alloc; "O/{words}.cbl")?;
            let text = framed(alloc, words, step.text)?;
            is_held(alloc, shelf, name.as_str(), text.as_bytes())
        }
        _ => Ok(false),
    }
}

/// Whether all that a walk says is so, from a shelf without files on. A step begins with `@` at the begin of a line.
fn goes(alloc: Global, walk: &str) -> Result<bool, Fail> {
    let mut shelf = MemoryShelf::new(alloc)?;
    let (_, mut rest) = walk.split_once("@").unwrap_or(("", walk));
    for _ in 0..walk.len() {
        if rest.is_empty() {
            return Ok(true);
        }
        let (step, more) = next_step(rest);
        if !puts(alloc, &mut shelf, step)? && !holds(alloc, &mut shelf, step)? {
            return Ok(false);
        }
        rest = more;
    }
    Ok(true)
}

/// How many walks of the table go as they say; none are counted behind one that doesn't.
pub(crate) fn count_going(alloc: Global, table: &str) -> Result<u32, Fail> {
    let mut rest = table;
    let mut count: u32 = 0;
    for _ in 0..table.len() {
        match rest.split_once("\n====\n") {
            None => return Ok(count),
            Some((walk, more)) => {
                if !goes(alloc, walk)? {
                    return Ok(count);
                }
                count = count.saturating_add(1);
                rest = more;
            }
        }
    }
    Ok(count)
}
