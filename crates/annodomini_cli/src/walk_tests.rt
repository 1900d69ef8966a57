use crate::walks::count_going;
use std::test::Fail;

/// Programs whose years get their century, and their runs before and after.
const RUNS: &str = "@manifest P5
@seeds
P5,D,year,1
@program P5
       01  D PIC 9(6) VALUE 991231.
       01  G REDEFINES D.
           05  YY PIC 9(2).
           05  MM PIC 9(2).
           05  DD PIC 9(2).
       01  M2 PIC X(2).
--
           MOVE D (3:2) TO M2.
           DISPLAY M2.
@call 0 run m.toml J 990630 1000 A
12
P5 stopped
@call 0 convert m.toml O
converted 1 programs, 0 copybooks, 0 data files
@call 0 run O/m.toml J 990630 1000 B
12
P5 stopped
====
@manifest P27
@seeds
P27,HIRED,year,1
@program P27
       01  HIRED PIC 9(6).
       01  E PIC 99/99/99.
--
           MOVE 580702 TO HIRED.
           MOVE HIRED TO E.
           DISPLAY E.
@call 0 run m.toml J 990630 1000 A
58/07/02
P27 stopped
@call 0 convert m.toml O
converted 1 programs, 0 copybooks, 0 data files
@call 0 run O/m.toml J 990630 1000 B
1958/07/02
P27 stopped
====
@manifest GROUPS
@seeds
GROUPS,DA,year,1
@program GROUPS
       01  A.
           05  DA PIC 9(6).
           05  XA PIC X.
       01  B.
           05  DB PIC 9(6).
           05  XB PIC X.
       01  C.
           05  DC PIC 9(6).
           05  XC PIC X.
--
           MOVE 990101 TO DC.
           IF A = B DISPLAY \"EQUAL\".
           IF A < C DISPLAY \"LESS\".
           IF B < C DISPLAY \"LESS\".
           IF A > C DISPLAY \"MORE\".
@call 0 run m.toml J 990630 1000 A
EQUAL
LESS
LESS
GROUPS stopped
@call 0 convert m.toml O
converted 1 programs, 0 copybooks, 0 data files
@call 0 run O/m.toml J 990630 1000 B
EQUAL
LESS
LESS
GROUPS stopped
====
@manifest AGES
@seeds
AGES,BORN,year,1
@program AGES
       01  AGE PIC 9(2).
       01  CURR PIC 9(2).
       01  BORN PIC 9(2).
--
           MOVE 99 TO CURR.
           MOVE 58 TO BORN.
           COMPUTE AGE = CURR - BORN.
           DISPLAY AGE.
@call 0 run m.toml J 990630 1000 A
41
AGES stopped
@call 0 convert m.toml O
converted 1 programs, 0 copybooks, 0 data files
@call 0 run O/m.toml J 990630 1000 B
41
AGES stopped
====
@put m.toml
version = 1
pivot = 50
programs = [\"W5.cbl\"]
seeds = \"seeds.csv\"
[files]
EMPOUT = \"out.dat\"
[jobs]
J = [\"W5\"]
@seeds
W5,R,year,5
@put W5.cbl
       IDENTIFICATION DIVISION.
       PROGRAM-ID. W5.
       ENVIRONMENT DIVISION.
       INPUT-OUTPUT SECTION.
       FILE-CONTROL.
           SELECT F ASSIGN TO EMPOUT.
       DATA DIVISION.
       FILE SECTION.
       FD  F.
       01  R PIC 9(6).
       PROCEDURE DIVISION.
       MAIN-PARA.
           OPEN OUTPUT F.
           WRITE R FROM 010158.
           CLOSE F.
           STOP RUN.
@call 0 run m.toml J 990630 1000 A
W5 stopped
@bytes A/out.dat
010158
@call 0 convert m.toml O
converted 1 programs, 0 copybooks, 0 data files
@holds O/W5.cbl
       IDENTIFICATION DIVISION.
       PROGRAM-ID. W5.
       ENVIRONMENT DIVISION.
       INPUT-OUTPUT SECTION.
       FILE-CONTROL.
           SELECT F ASSIGN TO EMPOUT.
       DATA DIVISION.
       FILE SECTION.
       FD  F.
       01  R PIC 9(8).
       PROCEDURE DIVISION.
       MAIN-PARA.
           OPEN OUTPUT F.
           WRITE R FROM \"01011958\".
           CLOSE F.
           STOP RUN.
@call 0 run O/m.toml J 990630 1000 B
W5 stopped
@bytes B/out.dat
01011958
====
@manifest P19
@seeds
@program P19
       01  X PIC 9(1) VALUE 0.
--
           PERFORM CONTINUE-PARA UNTIL X = 1.
           STOP RUN.
       CONTINUE-PARA.
           CONTINUE.
       END-PARA.
@call 9 run m.toml J 990101 1000 A
P19 running
@call 0 convert m.toml O
converted 1 programs, 0 copybooks, 0 data files
@call 9 run O/m.toml J 990101 1000 B
P19 running
====
@manifest P28
@seeds
@program P28
       01  TODAY PIC 9(6).
--
           ACCEPT TODAY FROM DATE.
           DISPLAY TODAY.
@call 0 run m.toml J 990630 1000 A
990630
P28 stopped
@call 0 convert m.toml O
converted 1 programs, 0 copybooks, 0 data files
@call 0 run O/m.toml J 990630 1000 B
19990630
P28 stopped
====
";

/// Programs with windowed years, and their runs before and after.
const WINDOWS: &str = "@manifest P12
window = [\"P12.D1\", \"P12.D2\"]
@seeds
P12,D1,year,1
P12,D2,year,1
@program P12
       01  D1 PIC 9(6).
       01  D2 PIC 9(6).
--
           MOVE 991231 TO D1.
           MOVE 000101 TO D2.
           IF D1 < D2 DISPLAY \"FIRST\".
           MOVE 000101 TO D1.
           MOVE 991231 TO D2.
           IF D1 < D2 DISPLAY \"SECOND\".
           MOVE 500000 TO D1.
           MOVE 499999 TO D2.
           IF D1 < D2 DISPLAY \"THIRD\".
@call 0 run m.toml J 990630 1000 A
SECOND
P12 stopped
@call 0 convert m.toml O
converted 1 programs, 0 copybooks, 0 data files
@call 0 run O/m.toml J 990630 1000 B
FIRST
THIRD
P12 stopped
====
@manifest R11
window = [\"R11.CURR\", \"R11.BORN\", \"R11.YY\"]
@seeds
R11,CURR,year,1
R11,BORN,year,1
R11,YY,year,1
@program R11
       01  AGE PIC 9(2).
       01  CURR PIC 9(2).
       01  BORN PIC 9(2).
       01  YY PIC 9(2).
--
           MOVE 05 TO CURR.
           MOVE 99 TO BORN.
           COMPUTE AGE = CURR - BORN.
           DISPLAY AGE.
           MOVE 99 TO CURR.
           MOVE 58 TO BORN.
           COMPUTE AGE = CURR - BORN.
           DISPLAY AGE.
           MOVE 60 TO YY.
           SUBTRACT 0.5 FROM YY ROUNDED.
           DISPLAY YY.
@call 0 run m.toml J 990630 1000 A
94
41
60
R11 stopped
@call 0 convert m.toml O
converted 1 programs, 0 copybooks, 0 data files
@call 0 run O/m.toml J 990630 1000 B
06
41
60
R11 stopped
====
@manifest R16
window = [\"R16.A\"]
@seeds
R16,A,year,1
@program R16
       01  A PIC 9(6).
       01  B PIC 9(6).
--
           MOVE 991231 TO A.
           MOVE A TO B.
           DISPLAY B.
           MOVE 000101 TO A.
           MOVE A TO B.
           DISPLAY B.
@call 0 run m.toml J 990630 1000 A
991231
000101
R16 stopped
@call 0 convert m.toml O
converted 1 programs, 0 copybooks, 0 data files
@call 0 run O/m.toml J 990630 1000 B
19991231
20000101
R16 stopped
====
@manifest SHORTER
window = [\"SHORTER.W\"]
@seeds
SHORTER,B,year,1
SHORTER,W,year,3
@program SHORTER
       01  B PIC 9(6).
       01  W PIC 9(8).
--
           MOVE 990101 TO B.
           MOVE B TO W.
           DISPLAY W.
@call 0 run m.toml J 990630 1000 A
00990101
SHORTER stopped
@call 0 convert m.toml O
converted 1 programs, 0 copybooks, 0 data files
@call 0 run O/m.toml J 990630 1000 B
00990101
SHORTER stopped
====
@put m.toml
version = 2
pivot = 50
programs = [\"P17.cbl\"]
seeds = \"seeds.csv\"
window = [{ pivot = 10, items = [\"P17.BIRTH\"] }, { pivot = 50, items = [\"P17.DUE\"] }]
[jobs]
J = [\"P17\"]
@seeds
P17,BIRTH,year,1
P17,DUE,year,1
@program P17
       01  BIRTH PIC 9(6).
       01  DUE PIC 9(6).
--
           MOVE 350101 TO BIRTH.
           IF BIRTH < 400101 DISPLAY \"FIRST\".
           MOVE 050101 TO BIRTH.
           IF BIRTH < 400101 DISPLAY \"SECOND\".
@call 0 run m.toml J 990630 1000 A
FIRST
SECOND
P17 stopped
@call 0 convert m.toml O
converted 1 programs, 0 copybooks, 0 data files
@call 0 run O/m.toml J 990630 1000 B
FIRST
P17 stopped
====
";

#[test]
fn converted_programs_run_as_the_originals_with_whole_years(rt: HostRuntime) -> Result<(), Fail> {
    let count = count_going(rt.alloc(), RUNS)?;
    assert_eq!(rt; count, 7);
    Ok(())
}

#[test]
fn windowed_years_are_ordered_as_whole_years(rt: HostRuntime) -> Result<(), Fail> {
    let count = count_going(rt.alloc(), WINDOWS)?;
    assert_eq!(rt; count, 5);
    Ok(())
}
