ghost use Rattle.std.specs.Prelude.{◌≡◌, IfOk};
ghost use Rattle.portfolio_gen.specs.Sources as spec;

use std::alloc::Global;
use y2k_base::{Bytes, List, Memory, Text, TextRole, Texts};

const MANIFEST: &str = r#"version = 1
pivot = 50
programs = ["SELECTP.cbl", "REPORTP.cbl"]
seeds = "seeds.csv"
[copybooks]
EMPREC = "EMPREC.cpy"
[files]
EMPIN = "empin.dat"
EMPOUT = "empout.dat"
REPOUT = "repout.dat"
[jobs]
NIGHT = ["SELECTP", "REPORTP"]
"#;

const SEEDS: &str = "program,item,kind,digit
SELECTP,HIRED OF IN-REC,year,1
";

const EMPREC: &str = "       01 EMP-REC.
           05 EMP-ID PIC 9(6).
           05 HIRED PIC 9(6).
           05 EMP-NAME PIC X(8).
";

const SELECTP: &str = r#"       IDENTIFICATION DIVISION.
       PROGRAM-ID. SELECTP.
       ENVIRONMENT DIVISION.
       INPUT-OUTPUT SECTION.
       FILE-CONTROL.
           SELECT EMPIN ASSIGN TO EMPIN.
           SELECT EMPOUT ASSIGN TO EMPOUT.
       DATA DIVISION.
       FILE SECTION.
       FD EMPIN.
           COPY EMPREC REPLACING ==EMP-REC== BY ==IN-REC==.
       FD EMPOUT.
           COPY EMPREC REPLACING ==EMP-REC== BY ==OUT-REC==.
       WORKING-STORAGE SECTION.
       01 DONE-FLAG PIC X VALUE "N".
       PROCEDURE DIVISION.
       MAIN-PARA.
           OPEN INPUT EMPIN OUTPUT EMPOUT.
           PERFORM READ-PARA UNTIL DONE-FLAG = "Y".
           CLOSE EMPIN EMPOUT.
           STOP RUN.
       READ-PARA.
           READ EMPIN AT END MOVE "Y" TO DONE-FLAG
             NOT AT END PERFORM PICK-PARA END-READ.
       PICK-PARA.
           IF HIRED OF IN-REC < 800101
             MOVE IN-REC TO OUT-REC WRITE OUT-REC END-IF.
"#;

const REPORTP: &str = r#"       IDENTIFICATION DIVISION.
       PROGRAM-ID. REPORTP.
       ENVIRONMENT DIVISION.
       INPUT-OUTPUT SECTION.
       FILE-CONTROL.
           SELECT EMPOUT ASSIGN TO EMPOUT.
           SELECT REPOUT ASSIGN TO REPOUT.
       DATA DIVISION.
       FILE SECTION.
       FD EMPOUT.
           COPY EMPREC.
       FD REPOUT.
       01 LINE-REC.
           05 L-ID PIC Z(5)9.
           05 FILLER PIC X(2).
           05 L-DATE PIC 99/99/99.
       WORKING-STORAGE SECTION.
       01 DONE-FLAG PIC X VALUE "N".
       PROCEDURE DIVISION.
       MAIN-PARA.
           OPEN INPUT EMPOUT OUTPUT REPOUT.
           PERFORM READ-PARA UNTIL DONE-FLAG = "Y".
           CLOSE EMPOUT REPOUT.
           STOP RUN.
       READ-PARA.
           READ EMPOUT AT END MOVE "Y" TO DONE-FLAG
             NOT AT END PERFORM PICK-PARA END-READ.
       PICK-PARA.
           MOVE EMP-ID TO L-ID MOVE HIRED TO L-DATE WRITE LINE-REC.
"#;

pub(crate) fn manifest(alloc: Global) -> Result<Bytes, Memory>
    ensures { IfOk result (λ text. text ≡ spec.manifest) }
{
    let text = bytes_of(alloc, MANIFEST)?;
    Ok(text)
}

pub(crate) fn seeds(alloc: Global) -> Result<Bytes, Memory>
    ensures { IfOk result (λ text. text ≡ spec.seeds) }
{
    let text = bytes_of(alloc, SEEDS)?;
    Ok(text)
}

/// The copybook, and then the programs in the order of the manifest.
pub(crate) fn source_texts(alloc: Global) -> Result<Texts, Memory>
    ensures { IfOk result (λ texts. texts.list ≡ spec.source_texts) }
{
    let mut list = List::new(alloc);
    list.push(employee_book(alloc)?)?;
    list.push(selecting_program(alloc)?)?;
    list.push(reporting_program(alloc)?)?;
    Ok(Texts { list })
}

fn employee_book(alloc: Global) -> Result<Text, Memory>
    ensures { IfOk result (λ text. text ≡ spec.employee_book) }
{
    Ok(Text {
        name: bytes_of(alloc, "EMPREC.cpy")?,
        key: bytes_of(alloc, "EMPREC")?,
        role: TextRole::Book,
        bytes: bytes_of(alloc, EMPREC)?,
    })
}

fn selecting_program(alloc: Global) -> Result<Text, Memory>
    ensures { IfOk result (λ text. text ≡ spec.selecting_program) }
{
    Ok(Text {
        name: bytes_of(alloc, "SELECTP.cbl")?,
        key: List::new(alloc),
        role: TextRole::Program,
        bytes: bytes_of(alloc, SELECTP)?,
    })
}

fn reporting_program(alloc: Global) -> Result<Text, Memory>
    ensures { IfOk result (λ text. text ≡ spec.reporting_program) }
{
    Ok(Text {
        name: bytes_of(alloc, "REPORTP.cbl")?,
        key: List::new(alloc),
        role: TextRole::Program,
        bytes: bytes_of(alloc, REPORTP)?,
    })
}

fn bytes_of(alloc: Global, text: &str) -> Result<Bytes, Memory>
    ensures { IfOk result (λ bytes. bytes ≡ text.now) }
{
    let mut bytes = List::new(alloc);
    bytes.append(text.as_bytes())?;
    Ok(bytes)
}
