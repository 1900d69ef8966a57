use crate::walks::{call, count_going, is_held, next_step, puts};
use shelf::{MemoryShelf, Shelf};
use std::alloc::Global;
use std::test::Fail;

/// Copybooks that several programs copy, lines with their sequence and identification areas, and words that stay.
const TEXTS: &str = "@put m.toml
version = 1
pivot = 50
programs = [\"P15A.cbl\", \"P15B.cbl\"]
seeds = \"seeds.csv\"
[copybooks]
W = \"W.cpy\"
@seeds
P15A,W-DATE,year,1
@put W.cpy
           05  W-DATE PIC 9(6).
@program P15A
       01  REC-A.
           COPY W.
--
@program P15B
       01  REC-B.
           COPY W.
--
@call 0 label m.toml
program,area,offset,label
P15A,REC-A,0,T
P15A,REC-A,1,U
P15B,REC-B,0,T
P15B,REC-B,1,U
@call 0 convert m.toml O
converted 2 programs, 1 copybooks, 0 data files
@holds O/W.cpy
           05  W-DATE PIC 9(8).
@written P15A
       01  REC-A.
           COPY W.
--
@written P15B
       01  REC-B.
           COPY W.
--
@call 3 convert m.toml O
refused OutTaken O/done
====
@put m.toml
version = 1
pivot = 50
programs = [\"P15A.cbl\", \"P15B.cbl\"]
seeds = \"seeds.csv\"
[copybooks]
W = \"W.cpy\"
@seeds
P15A,W-DATE,year,1
@put W.cpy
           05  W-DATE PIC 9(6).
@program P15A
       01  REC-A.
           COPY W.
--
@program P15B
       01  REC-B.
           COPY W REPLACING ==PIC 9(8)== BY ==PIC X(8)==.
--
@call 4 convert m.toml O
limit CopyClash W.cpy:1:27 9(8) X(8)
@lacks O/W.cpy
@lacks O/done
====
@manifest EDITED
@seeds
EDITED,D,year,1
@put EDITED.cbl
000100 IDENTIFICATION DIVISION.                                         LINES01
000200 PROGRAM-ID. EDITED.                                               LINES02
000300 DATA DIVISION.                                                   LINES03
000400 WORKING-STORAGE SECTION.                                         LINES04
000500 01  D PIC 9(6).                                                  LINES05
000600* 01  D PIC 9(6).                                                 LINES06
000700 PROCEDURE DIVISION.                                              LINES07
000800 MAIN-PARA.                                                       LINES08
000900     STOP RUN.                                                    LINES09
@call 0 convert m.toml O
converted 1 programs, 0 copybooks, 0 data files
@holds O/EDITED.cbl
000100 IDENTIFICATION DIVISION.                                         LINES01
000200 PROGRAM-ID. EDITED.                                               LINES02
000300 DATA DIVISION.                                                   LINES03
000400 WORKING-STORAGE SECTION.                                         LINES04
000500 01  D PIC 9(8).                                                  LINES05
000600* 01  D PIC 9(6).                                                 LINES06
000700 PROCEDURE DIVISION.                                              LINES07
000800 MAIN-PARA.                                                       LINES08
000900     STOP RUN.                                                    LINES09
====
@manifest EQUALS
window = [\"EQUALS.D1\", \"EQUALS.D2\", \"EQUALS.YY\"]
@seeds
EQUALS,D1,year,1
EQUALS,D2,year,1
EQUALS,YY,year,1
@program EQUALS
       01  D1 PIC 9(6).
       01  D2 PIC 9(6).
       01  YY PIC 9(2).
--
           IF D1 = D2 CONTINUE.
           IF YY = 40 CONTINUE.
@call 0 convert m.toml O
converted 1 programs, 0 copybooks, 0 data files
@written EQUALS
       01  D1 PIC 9(6).
       01  D2 PIC 9(6).
       01  YY PIC 9(2).
--
           IF D1 = D2 CONTINUE.
           IF YY = 40 CONTINUE.
====
";

/// Data files: of two records, of none, not there, with a record that has no year, and with a byte left over.
const DATA: &str = "@put m.toml
version = 1
pivot = 50
programs = [\"PF.cbl\"]
seeds = \"seeds.csv\"
[files]
EMPIN = \"empin.dat\"
[jobs]
J = [\"PF\"]
@seeds
PF,D,year,1
@put PF.cbl
       IDENTIFICATION DIVISION.
       PROGRAM-ID. PF.
       ENVIRONMENT DIVISION.
       INPUT-OUTPUT SECTION.
       FILE-CONTROL.
           SELECT F ASSIGN TO EMPIN.
       DATA DIVISION.
       FILE SECTION.
       FD  F.
       01  R.
           05  NUM PIC 9(6).
           05  HIRED PIC 9(6).
       WORKING-STORAGE SECTION.
       01  D PIC 9(6).
       01  G REDEFINES D.
           05  YY PIC 9(2).
           05  MM PIC 9(2).
           05  DD PIC 9(2).
       01  M2 PIC X(2).
       PROCEDURE DIVISION.
       MAIN-PARA.
           MOVE HIRED TO D.
           MOVE D (3:2) TO M2.
           STOP RUN.
@raw empin.dat
000001850101000002860101
@call 0 convert m.toml O
converted 1 programs, 0 copybooks, 1 data files
@bytes O/empin.dat
0000011985010100000219860101
====
@put m.toml
version = 1
pivot = 50
programs = [\"PF.cbl\"]
seeds = \"seeds.csv\"
[files]
EMPIN = \"empin.dat\"
[jobs]
J = [\"PF\"]
@seeds
PF,D,year,1
@put PF.cbl
       IDENTIFICATION DIVISION.
       PROGRAM-ID. PF.
       ENVIRONMENT DIVISION.
       INPUT-OUTPUT SECTION.
       FILE-CONTROL.
           SELECT F ASSIGN TO EMPIN.
       DATA DIVISION.
       FILE SECTION.
       FD  F.
       01  R.
           05  NUM PIC 9(6).
           05  HIRED PIC 9(6).
       WORKING-STORAGE SECTION.
       01  D PIC 9(6).
       01  G REDEFINES D.
           05  YY PIC 9(2).
           05  MM PIC 9(2).
           05  DD PIC 9(2).
       01  M2 PIC X(2).
       PROCEDURE DIVISION.
       MAIN-PARA.
           MOVE HIRED TO D.
           MOVE D (3:2) TO M2.
           STOP RUN.
@raw empin.dat

@call 0 convert m.toml O
converted 1 programs, 0 copybooks, 1 data files
@bytes O/empin.dat

====
@put m.toml
version = 1
pivot = 50
programs = [\"PF.cbl\"]
seeds = \"seeds.csv\"
[files]
EMPIN = \"empin.dat\"
[jobs]
J = [\"PF\"]
@seeds
PF,D,year,1
@put PF.cbl
       IDENTIFICATION DIVISION.
       PROGRAM-ID. PF.
       ENVIRONMENT DIVISION.
       INPUT-OUTPUT SECTION.
       FILE-CONTROL.
           SELECT F ASSIGN TO EMPIN.
       DATA DIVISION.
       FILE SECTION.
       FD  F.
       01  R.
           05  NUM PIC 9(6).
           05  HIRED PIC 9(6).
       WORKING-STORAGE SECTION.
       01  D PIC 9(6).
       01  G REDEFINES D.
           05  YY PIC 9(2).
           05  MM PIC 9(2).
           05  DD PIC 9(2).
       01  M2 PIC X(2).
       PROCEDURE DIVISION.
       MAIN-PARA.
           MOVE HIRED TO D.
           MOVE D (3:2) TO M2.
           STOP RUN.
@call 0 convert m.toml O
converted 1 programs, 0 copybooks, 0 data files
@lacks O/empin.dat
====
@put m.toml
version = 1
pivot = 50
programs = [\"PF.cbl\"]
seeds = \"seeds.csv\"
[files]
EMPIN = \"empin.dat\"
[jobs]
J = [\"PF\"]
@seeds
PF,D,year,1
@put PF.cbl
       IDENTIFICATION DIVISION.
       PROGRAM-ID. PF.
       ENVIRONMENT DIVISION.
       INPUT-OUTPUT SECTION.
       FILE-CONTROL.
           SELECT F ASSIGN TO EMPIN.
       DATA DIVISION.
       FILE SECTION.
       FD  F.
       01  R.
           05  NUM PIC 9(6).
           05  HIRED PIC 9(6).
       WORKING-STORAGE SECTION.
       01  D PIC 9(6).
       01  G REDEFINES D.
           05  YY PIC 9(2).
           05  MM PIC 9(2).
           05  DD PIC 9(2).
       01  M2 PIC X(2).
       PROCEDURE DIVISION.
       MAIN-PARA.
           MOVE HIRED TO D.
           MOVE D (3:2) TO M2.
           STOP RUN.
@raw empin.dat
0000018501010000028601010000039 0101
@call 5 convert m.toml O
data Untame EMPIN record 3 offset 6 bytes 3920
@lacks O/empin.dat
@lacks O/done
====
@put m.toml
version = 1
pivot = 50
programs = [\"PF.cbl\"]
seeds = \"seeds.csv\"
[files]
EMPIN = \"empin.dat\"
[jobs]
J = [\"PF\"]
@seeds
PF,D,year,1
@put PF.cbl
       IDENTIFICATION DIVISION.
       PROGRAM-ID. PF.
       ENVIRONMENT DIVISION.
       INPUT-OUTPUT SECTION.
       FILE-CONTROL.
           SELECT F ASSIGN TO EMPIN.
       DATA DIVISION.
       FILE SECTION.
       FD  F.
       01  R.
           05  NUM PIC 9(6).
           05  HIRED PIC 9(6).
       WORKING-STORAGE SECTION.
       01  D PIC 9(6).
       01  G REDEFINES D.
           05  YY PIC 9(2).
           05  MM PIC 9(2).
           05  DD PIC 9(2).
       01  M2 PIC X(2).
       PROCEDURE DIVISION.
       MAIN-PARA.
           MOVE HIRED TO D.
           MOVE D (3:2) TO M2.
           STOP RUN.
@raw empin.dat
0000018501010
@call 5 convert m.toml O
data PartialRecord EMPIN left 1
@call 5 run m.toml J 990630 1000 A
data PartialRecord EMPIN left 1
@lacks A/done
====
";

#[test]
fn copybooks_are_written_once_and_other_words_stay(rt: HostRuntime) -> Result<(), Fail> {
    let count = count_going(rt.alloc(), TEXTS)?;
    assert_eq!(rt; count, 4);
    Ok(())
}

#[test]
fn data_files_are_checked_before_they_are_written(rt: HostRuntime) -> Result<(), Fail> {
    let count = count_going(rt.alloc(), DATA)?;
    assert_eq!(rt; count, 5);
    Ok(())
}

/// A portfolio with a data file of two records.
const TWO_RECORDS: &str = "@put m.toml
version = 1
pivot = 50
programs = [\"PF.cbl\"]
seeds = \"seeds.csv\"
[files]
EMPIN = \"empin.dat\"
[jobs]
J = [\"PF\"]
@seeds
PF,D,year,1
@put PF.cbl
       IDENTIFICATION DIVISION.
       PROGRAM-ID. PF.
       ENVIRONMENT DIVISION.
       INPUT-OUTPUT SECTION.
       FILE-CONTROL.
           SELECT F ASSIGN TO EMPIN.
       DATA DIVISION.
       FILE SECTION.
       FD  F.
       01  R.
           05  NUM PIC 9(6).
           05  HIRED PIC 9(6).
       WORKING-STORAGE SECTION.
       01  D PIC 9(6).
       01  G REDEFINES D.
           05  YY PIC 9(2).
           05  MM PIC 9(2).
           05  DD PIC 9(2).
       01  M2 PIC X(2).
       PROCEDURE DIVISION.
       MAIN-PARA.
           MOVE HIRED TO D.
           MOVE D (3:2) TO M2.
           STOP RUN.
@raw empin.dat
000001850101000002860101";

/// What its conversion writes.
const WRITTEN: [&str; 6] = [
    "O/empin.dat",
    "O/PF.cbl",
    "O/m.toml",
    "O/labels.csv",
    "O/plan.csv",
    "O/done",
];

/// A shelf with what the steps of a walk put on it.
fn shelf_of(alloc: Global, walk: &str) -> Result<MemoryShelf, Fail> {
    let mut shelf = MemoryShelf::new(alloc)?;
    let (_, mut rest) = walk.split_once("@").unwrap_or(("", walk));
    for _ in 0..walk.len() {
        if rest.is_empty() {
            return Ok(shelf);
        }
        let (step, more) = next_step(rest);
        puts(alloc, &mut shelf, step)?;
        rest = more;
    }
    Ok(shelf)
}

/// The bytes of a file, at most 4,000.
fn held(alloc: Global, shelf: &mut MemoryShelf, name: &str) -> Result<Vec<u8>, Fail> {
    let mut bytes = vec![in alloc; 0u8; 4000]?;
    match shelf.read(name, 0, bytes.as_mut_slice()) {
        Ok(count) => bytes.truncate(count),
        Err(_) => bytes.truncate(0),
    }
    Ok(bytes)
}

/// Whether all that is written on one shelf stands on the other.
fn is_whole(alloc: Global, shelf: &mut MemoryShelf, other: &mut MemoryShelf) -> Result<bool, Fail> {
    for name in WRITTEN {
        let bytes = held(alloc, shelf, name)?;
        if !is_held(alloc, other, name, bytes.as_slice())? {
            return Ok(false);
        }
    }
    Ok(true)
}

/// What a conversion comes to of whose calls of the shelf one fails: its status, whether it prints a name, whether the mark of
/// the end is missing, whether the image of the first record alone is written, and whether a second conversion writes all.
#[derive(Drop)]
struct Broken {
    status: u8,
    is_named: bool,
    is_open: bool,
    has_first: bool,
    is_mended: bool,
}

fn with_fault(alloc: Global, number: u64, whole: &mut MemoryShelf) -> Result<Broken, Fail> {
    let mut shelf = shelf_of(alloc, TWO_RECORDS)?;
    shelf.fail_on(number)?;
    let (status, printed) = call(alloc, &mut shelf, "convert m.toml O", 0)?;
    let is_named = printed.as_slice().starts_with(b"shelf fault ".as_slice());
    let is_open = !is_held(alloc, &mut shelf, "O/done", b"done\n".as_slice())?;
    let has_first = is_held(
        alloc,
        &mut shelf,
        "O/empin.dat",
        b"00000119850101".as_slice(),
    )?;
    let (again, _) = call(alloc, &mut shelf, "convert m.toml O", 0)?;
    let is_mended = again == 0 && is_whole(alloc, whole, &mut shelf)?;
    Ok(Broken {
        status,
        is_named,
        is_open,
        has_first,
        is_mended,
    })
}

#[test]
fn after_a_fault_of_the_shelf_a_second_conversion_writes_all(rt: HostRuntime) -> Result<(), Fail> {
    let alloc = rt.alloc();
    let mut whole = shelf_of(alloc, TWO_RECORDS)?;
    let (status, _) = call(alloc, &mut whole, "convert m.toml O", 0)?;
    assert_eq!(rt; status, 0);
    let mut faults: u32 = 0;
    let mut firsts: u32 = 0;
    for number in 1..100u64 {
        let it = with_fault(alloc, number, &mut whole)?;
        if it.status != 0 {
            assert_eq!(rt; it.status, 6);
            assert!(rt; it.is_named && it.is_open && it.is_mended);
            faults = faults.saturating_add(1);
            if it.has_first {
                firsts = firsts.saturating_add(1);
            }
        }
    }
    assert!(rt; faults > 20 && faults < 99);
    assert!(rt; firsts > 0);
    Ok(())
}

#[test]
fn all_is_written_before_the_line_that_says_so(rt: HostRuntime) -> Result<(), Fail> {
    let alloc = rt.alloc();
    let mut whole = shelf_of(alloc, TWO_RECORDS)?;
    let (status, _) = call(alloc, &mut whole, "convert m.toml O", 0)?;
    assert_eq!(rt; status, 0);
    let mut shelf = shelf_of(alloc, TWO_RECORDS)?;
    let (status, _) = call(alloc, &mut shelf, "convert m.toml O", 1)?;
    assert_eq!(rt; status, 7);
    assert!(rt; is_whole(alloc, &mut whole, &mut shelf)?);
    Ok(())
}
