use crate::annodomini;
use crate::fixture::{Case, next_case, program};
use shelf::{MemoryShelf, MemorySink, Shelf};
use std::alloc::Global;
use std::test::Fail;

/// The rows of seeds of a program; a case has them with a blank between.
fn seed_rows(alloc: Global, name: &str, seeds: &str) -> Result<String, Fail> {
    let mut rows = format!(in alloc; "program,item,kind,digit\n")?;
    let mut rest = seeds;
    for _ in 0..seeds.len() {
        let (seed, more) = rest.split_once(" ").unwrap_or((rest, ""));
        if seed.is_empty() {
            return Ok(rows);
        }
        let row = format!(in alloc; "{name},{seed}\n")?;
        rows.push_str(row.as_str())?;
        rest = more;
    }
    Ok(rows)
}

fn manifest(alloc: Global, case: Case) -> Result<String, Fail> {
    let name = case.name;
    let windows = case.windows;
    let version = if windows.contains("pivot") { 2 } else { 1 };
    let text = format!(in alloc;
        "version = {version}\npivot = 50\nprograms = [\"{name}.cbl\"]\nseeds = \"seeds.csv\"\n{windows}\n"
    )?;
    Ok(text)
}

/// A shelf with the portfolio of the one program of a case.
fn shelf_of(alloc: Global, case: Case) -> Result<MemoryShelf, Fail> {
    let name = case.name;
    let mut shelf = MemoryShelf::new(alloc)?;
    shelf.put("m.toml", manifest(alloc, case)?.as_bytes())?;
    let file = format!(in alloc; "{name}.cbl")?;
    let text = program(alloc, name, case.entries, case.statements)?;
    shelf.put(file.as_str(), text.as_bytes())?;
    shelf.put("seeds.csv", seed_rows(alloc, name, case.seed)?.as_bytes())?;
    Ok(shelf)
}

/// All bytes of a file of at most 4,000 bytes.
fn bytes_of(alloc: Global, shelf: &mut MemoryShelf, name: &str) -> Result<Vec<u8>, Fail> {
    let mut bytes = vec![in alloc; 0u8; 4000]?;
    match shelf.read(name, 0, bytes.as_mut_slice()) {
        Ok(count) => bytes.truncate(count),
        Err(_) => bytes.truncate(0),
    }
    Ok(bytes)
}

/// Whether `convert` answers done, and writes the program that the case wants: its entries, and behind a line `--` its
/// statements.
fn holds(alloc: Global, case: Case) -> Result<bool, Fail> {
    let mut shelf = shelf_of(alloc, case)?;
    let mut out = MemorySink::new(alloc)?;
    let mut words = Vec::new(alloc);
    for word in ["convert", "m.toml", "O"] {
        words.push(String::from_str(alloc, word)?)?;
    }
    let status = annodomini(alloc, words.as_slice(), &mut shelf, &mut out);
    let done = b"converted 1 programs, 0 copybooks, 0 data files\n";
    if status != 0 || out.bytes() != done.as_slice() {
        return Ok(false);
    }
    let name = case.name;
    let file = format!(in alloc; "O/{name}.cbl")?;
    let (entries, statements) = case.wanted.split_once("--\n").unwrap_or((case.wanted, ""));
    let wanted = program(alloc, name, entries, statements)?;
    let got = bytes_of(alloc, &mut shelf, file.as_str())?;
    Ok(got.as_slice() == wanted.as_bytes())
}

/// How many cases of the table hold; none are counted behind one that doesn't.
fn count_holding(alloc: Global, table: &str) -> Result<u32, Fail> {
    let mut rest = table;
    let mut count: u32 = 0;
    for _ in 0..table.len() {
        match next_case(rest) {
            None => return Ok(count),
            Some((case, more)) => {
                if !holds(alloc, case)? {
                    return Ok(count);
                }
                count = count.saturating_add(1);
                rest = more;
            }
        }
    }
    Ok(count)
}

const EXPANSIONS: &str = "P5
D,year,1

--
       01  D PIC 9(6).
       01  G REDEFINES D.
           05  YY PIC 9(2).
           05  MM PIC 9(2).
           05  DD PIC 9(2).
       01  M2 PIC X(2).
--
           MOVE D (3:2) TO M2.
--
       01  D PIC 9(8).
       01  G REDEFINES D.
           05  YY PIC 9(4).
           05  MM PIC 9(2).
           05  DD PIC 9(2).
       01  M2 PIC X(2).
--
           MOVE D (5:2) TO M2.
====
P9
D,year,1 YY,year,1

--
       01  D PIC 9(6).
       01  YY PIC 9(2).
--
           MOVE ZERO TO D.
      * The year of the first card.
           MOVE 5 TO YY.
--
       01  D PIC 9(8).
       01  YY PIC 9(4).
--
           MOVE 19000000 TO D.
      * The year of the first card.
           MOVE 1905 TO YY.
====
P11
BORN,year,1

--
       01  AGE PIC 9(2).
       01  CURR PIC 9(2).
       01  BORN PIC 9(2).
--
           COMPUTE AGE = CURR - BORN.
--
       01  AGE PIC 9(2).
       01  CURR PIC 9(4).
       01  BORN PIC 9(4).
--
           COMPUTE AGE = CURR - BORN.
====
P14
D,year,1

--
       01  D PIC 9(16).
--
--
       01  D PIC 9(18).
--
====
P27
HIRED,year,1

--
       01  HIRED PIC 9(6).
       01  E PIC 99/99/99.
--
           MOVE 580702 TO HIRED.
           MOVE HIRED TO E.
--
       01  HIRED PIC 9(8).
       01  E PIC 9(4)/99/99.
--
           MOVE 19580702 TO HIRED.
           MOVE HIRED TO E.
====
SEVERAL
YY,year,1

--
       01  YY PIC 9(2).
       01  N PIC 9(2).
--
           MOVE 5 TO YY N.
--
       01  YY PIC 9(4).
       01  N PIC 9(2).
--
           MOVE 1905 TO YY MOVE 5 TO N.
====
";

const DATES_AND_WINDOWS: &str = "P28


--
       01  TODAY PIC 9(6).
--
           ACCEPT TODAY FROM DATE.
           DISPLAY TODAY.
--
       01  TODAY PIC 9(8).
       01 Y2K-DATE PIC 9(6).
       01 Y2K-FULL-DATE PIC 9(8).
--
           ACCEPT Y2K-DATE FROM DATE IF Y2K-DATE < 500000 COMPUTE
           Y2K-FULL-DATE = Y2K-DATE + 20000000 ELSE COMPUTE
           Y2K-FULL-DATE = Y2K-DATE + 19000000 END-IF MOVE Y2K-FULL-DATE
           TO TODAY.
           DISPLAY TODAY.
====
P12
D1,year,1 D2,year,1
window = [\"P12.D1\", \"P12.D2\"]
--
       01  D1 PIC 9(6).
       01  D2 PIC 9(6).
--
           IF D1 < D2 CONTINUE.
--
       01  D1 PIC 9(6).
       01  D2 PIC 9(6).
--
           IF ((D1 < D2 AND (D1 NOT < 500000 OR D2 < 500000)) OR (D1 NOT
           < 500000 AND D2 < 500000)) CONTINUE.
====
AGES
CURR,year,1 BORN,year,1
window = [\"AGES.CURR\", \"AGES.BORN\"]
--
       01  AGE PIC 9(2).
       01  CURR PIC 9(2).
       01  BORN PIC 9(2).
--
           COMPUTE AGE = CURR - BORN.
--
       01  AGE PIC 9(2).
       01  CURR PIC 9(2).
       01  BORN PIC 9(2).
--
           IF CURR < 50 AND BORN NOT < 50 COMPUTE AGE = CURR - BORN +
           100 ELSE IF CURR NOT < 50 AND BORN < 50 COMPUTE AGE = CURR -
           BORN - 100 ELSE COMPUTE AGE = CURR - BORN END-IF END-IF.
====
EQUALS
D1,year,1 D2,year,1 YY,year,1
window = [\"EQUALS.D1\", \"EQUALS.D2\", \"EQUALS.YY\"]
--
       01  D1 PIC 9(6).
       01  D2 PIC 9(6).
       01  YY PIC 9(2).
--
           IF D1 = D2 CONTINUE.
           IF YY = 40 CONTINUE.
--
       01  D1 PIC 9(6).
       01  D2 PIC 9(6).
       01  YY PIC 9(2).
--
           IF D1 = D2 CONTINUE.
           IF YY = 40 CONTINUE.
====
P17
BIRTH,year,1 DUE,year,1
window = [{ pivot = 10, items = [\"P17.BIRTH\"] }, { pivot = 50, items = [\"P17.DUE\"] }]
--
       01  BIRTH PIC 9(6).
       01  DUE PIC 9(6).
--
           IF BIRTH < 400101 CONTINUE.
--
       01  BIRTH PIC 9(6).
       01  DUE PIC 9(6).
--
           IF (BIRTH < 400101 AND BIRTH NOT < 100000) CONTINUE.
====
P16A
A,year,1
window = [\"P16A.A\"]
--
       01  A PIC 9(6).
       01  B PIC 9(6).
--
           MOVE A TO B.
--
       01  A PIC 9(6).
       01  B PIC 9(8).
       01 Y2K-SHORT-6 PIC 9(6).
       01 Y2K-LONG-6 PIC 9(8).
--
           MOVE A TO Y2K-SHORT-6 IF Y2K-SHORT-6 < 500000 COMPUTE
           Y2K-LONG-6 = Y2K-SHORT-6 + 20000000 ELSE COMPUTE Y2K-LONG-6 =
           Y2K-SHORT-6 + 19000000 END-IF MOVE Y2K-LONG-6 TO B.
====
";

#[test]
fn items_literals_and_references_get_their_century(rt: HostRuntime) -> Result<(), Fail> {
    let count = count_holding(rt.alloc(), EXPANSIONS)?;
    assert_eq!(rt; count, 6);
    Ok(())
}

#[test]
fn accepted_dates_windows_and_bridged_moves_are_written_anew(rt: HostRuntime) -> Result<(), Fail> {
    let count = count_holding(rt.alloc(), DATES_AND_WINDOWS)?;
    assert_eq!(rt; count, 6);
    Ok(())
}
