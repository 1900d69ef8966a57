use crate::fixture::{Answer, Case, next_case, over_manifest, program};
use std::alloc::Global;
use std::test::Fail;

/// The files of a portfolio of one program.
#[derive(Drop)]
struct Files {
    manifest: String,
    text_name: String,
    text: String,
    seeds: String,
}

/// A manifest of that program with its windows, the program, and the seed file with its seed.
fn files_of(alloc: Global, case: Case) -> Result<Files, Fail> {
    let name = case.name;
    let windows = case.windows;
    let version = if windows.contains("pivot") { 2 } else { 1 };
    let manifest = format!(in alloc;
        "version = {version}\npivot = 50\nprograms = [\"{name}.cbl\"]\nseeds = \"seeds.csv\"\n{windows}\n"
    )?;
    let mut seeds = format!(in alloc; "program,item,kind,digit\n")?;
    if case.seed.len() > 0 {
        let seed = case.seed;
        let row = format!(in alloc; "{name},{seed}\n")?;
        seeds.push_str(row.as_str())?;
    }
    Ok(Files {
        manifest,
        text_name: format!(in alloc; "{name}.cbl")?,
        text: program(alloc, name, case.entries, case.statements)?,
        seeds,
    })
}

/// What `plan` answers for the program, where the calls of these numbers fail.
fn plan_failing(
    alloc: Global,
    case: Case,
    shelf_fault: u64,
    sink_fault: u64,
) -> Result<Answer, Fail> {
    let files = files_of(alloc, case)?;
    let answer = over_manifest(
        alloc,
        "plan",
        "m.toml",
        &[
            ("m.toml", files.manifest.as_str()),
            (files.text_name.as_str(), files.text.as_str()),
            ("seeds.csv", files.seeds.as_str()),
        ],
        shelf_fault,
        sink_fault,
    )?;
    Ok(answer)
}

/// Whether `plan` prints what the case says, with status 4 for the line of a limit and 0 for rows.
fn holds(alloc: Global, case: Case) -> Result<bool, Fail> {
    let got = plan_failing(alloc, case, 0, 0)?;
    let status = if case.wanted.starts_with("limit") {
        4
    } else {
        0
    };
    Ok(got.status == status && got.printed.as_slice() == case.wanted.as_bytes())
}

/// How many cases of the table hold; none are counted behind one that doesn't.
fn count_holding(alloc: Global, table: &str) -> Result<u32, Fail> {
    let mut rest = table;
    let mut count: u32 = 0;
    for _ in 0..table.len() {
        match next_case(rest) {
            None => return Ok(count),
            Some((case, more)) => {
                if !holds(alloc, case)? {
                    return Ok(count);
                }
                count = count.saturating_add(1);
                rest = more;
            }
        }
    }
    Ok(count)
}

const LIMITS_OF_ENTRIES: &str = "P8A
D,year,1

--
       01  D PIC 9(6).
       01  E REDEFINES D.
           05 F PIC 9(1).
           05 G PIC 9(5).
--
--
limit SplitYear P8A.cbl:7:12 P8A D 0
====
P8A
D,year,1

--
       01  D PIC 9(6).
       01  E REDEFINES D.
           05 F PIC 9(2).
           05 G PIC 9(4).
--
--
program,item,at,mode,old,new
P8A,D,P8A.cbl:5:8,expanded,9(6),9(8)
P8A,F,P8A.cbl:7:12,expanded,9(2),9(4)
====
SM
T,year,1

--
       01  P PIC 9(3) COMP-3.
       01  T REDEFINES P PIC X(2).
--
--
limit ShapeMix SM.cbl:5:8 SM P 0
====
SM
T,year,1

--
       01  P PIC 9(2).
       01  T REDEFINES P PIC X(2).
--
--
program,item,at,mode,old,new
SM,P,SM.cbl:5:8,expanded,9(2),9(4)
SM,T,SM.cbl:6:8,expanded,X(2),X(4)
====
P14
D,year,1

--
       01  D PIC 9(18).
--
--
limit TooManyDigits P14.cbl:5:8 20
====
P14
D,year,1

--
       01  D PIC 9(16).
--
--
program,item,at,mode,old,new
P14,D,P14.cbl:5:8,expanded,9(16),9(18)
====
PF
E,year,1

--
       01  E PIC 99B9B9B9B9B9B9B9B9B9B9B9B9B9B9.
--
--
limit PictureFull PF.cbl:5:8 32
====
PF
E,year,1

--
       01  E PIC 99B9B9B9B9B9B9B9B9B9B9B9B9B9.
--
--
program,item,at,mode,old,new
PF,E,PF.cbl:5:8,expanded,99B9B9B9B9B9B9B9B9B9B9B9B9B9,9(4)B9B9B9B9B9B9B9B9B9B9B9B9B9
====
AF
Y,year,1

--
       01  D.
           05 Y PIC 9(2).
           05 F PIC X(65532).
--
--
limit AreaFull AF.cbl:5:8 65536
====
AF
Y,year,1

--
       01  D.
           05 Y PIC 9(2).
           05 F PIC X(65531).
--
--
program,item,at,mode,old,new
AF,Y,AF.cbl:6:12,expanded,9(2),9(4)
====
";

const LIMITS_OF_STATEMENTS: &str = "P11
CURR,year,1

--
       01  AGE PIC 9(2).
       01  CURR PIC 9(2).
       01  BORN PIC 9(2).
--
           COMPUTE AGE = CURR - BORN.
--
limit Undecided P11.cbl:10:12 AGE
====
P11
BORN,year,1

--
       01  AGE PIC 9(2).
       01  CURR PIC 9(2).
       01  BORN PIC 9(2).
--
           COMPUTE AGE = CURR - BORN.
--
program,item,at,mode,old,new
P11,CURR,P11.cbl:6:8,expanded,9(2),9(4)
P11,BORN,P11.cbl:7:8,expanded,9(2),9(4)
====
P8E
YY,year,1

--
       01  YY PIC 9(2).
--
           MOVE \"X 58\" TO YY.
--
limit BadYearLiteral P8E.cbl:8:17 X 58
====
P8E
YY,year,1

--
       01  YY PIC 9(2).
--
           MOVE \"0058\" TO YY.
--
program,item,at,mode,old,new
P8E,YY,P8E.cbl:5:8,expanded,9(2),9(4)
====
LF
D,year,1

--
       01  D PIC X(200).
--
           MOVE \"58XXXXXXXXXXXXXXXXXXXXXXXXXXXXXXXXXXXXXXXXXXXXXXXXXXXXX
      -    \"XXXXXXXXXXXXXXXXXXXXXXXXXXXXXXXXXXXXXXXXXXXXXXXXXXXXXXXXXXXX
      -    \"XXXXXXXXXXXXXXXXXXXXXXXXXXXXXXXXXXXXXXXXXXXX\" TO D.
--
limit LiteralFull LF.cbl:8:17 161
====
LF
D,year,1

--
       01  D PIC X(200).
--
           MOVE \"58XXXXXXXXXXXXXXXXXXXXXXXXXXXXXXXXXXXXXXXXXXXXXXXXXXXXX
      -    \"XXXXXXXXXXXXXXXXXXXXXXXXXXXXXXXXXXXXXXXXXXXXXXXXXXXXXXXXXXXX
      -    \"XXXXXXXXXXXXXXXXXXXXXXXXXXXXXXXXXXXXXXXXXXX\" TO D.
--
program,item,at,mode,old,new
LF,D,LF.cbl:5:8,expanded,X(200),X(202)
====
PO
P,year,1

--
       01  G.
           05 P PIC 9(5) COMP-3.
       01  H.
           05 Q PIC 9(5) COMP-3.
--
           IF G < H CONTINUE.
--
limit PackedOrder PO.cbl:11:12 PO G 0
====
PO
P,year,1

--
       01  G.
           05 P PIC 9(5) COMP-3.
       01  H.
           05 Q PIC 9(5) COMP-3.
--
           IF G = H CONTINUE.
--
program,item,at,mode,old,new
PO,P,PO.cbl:6:12,expanded,9(5),9(7)
PO,Q,PO.cbl:8:12,expanded,9(5),9(7)
====
P28


--
       01  TODAY PIC 9(6).
       01  Y2K-X PIC X.
--
           ACCEPT TODAY FROM DATE.
           DISPLAY TODAY.
--
limit NameTaken P28.cbl:6:12 Y2K-X
====
P28


--
       01  TODAY PIC 9(6).
       01  Y2KX PIC X.
--
           ACCEPT TODAY FROM DATE.
           DISPLAY TODAY.
--
program,item,at,mode,old,new
P28,TODAY,P28.cbl:5:8,expanded,9(6),9(8)
====
";

const LIMITS_OF_WINDOWS: &str = "WS
D1,year,3
window = [\"WS.D1\", \"WS.D2\"]
--
       01  D1 PIC 9(6).
       01  D2 PIC 9(6).
--
           IF D1 < D2 CONTINUE.
--
limit WindowShape WS.cbl:9:12 WS D1 2
====
WS
D1,year,1
window = [\"WS.D1\", \"WS.D2\"]
--
       01  D1 PIC 9(6).
       01  D2 PIC 9(6).
--
           IF D1 < D2 CONTINUE.
--
program,item,at,mode,old,new
WS,D1,WS.cbl:5:8,windowed,9(6),9(6)
WS,D2,WS.cbl:6:8,windowed,9(6),9(6)
====
P13
YY,year,1
window = [\"P13.YY\"]
--
       01  YY PIC 9(2).
--
           IF YY < 40 CONTINUE.
--
limit LiteralOutsideWindow P13.cbl:8:20 40
====
P13
YY,year,1
window = [\"P13.YY\"]
--
       01  YY PIC 9(2).
--
           IF YY < 50 CONTINUE.
--
program,item,at,mode,old,new
P13,YY,P13.cbl:5:8,windowed,9(2),9(2)
====
RP
D,year,1
window = [\"RP.D\"]
--
       01  D PIC 9(6).
           88  R VALUE 400101 THRU 991231.
--
--
limit RangeAcrossPivot RP.cbl:6:24 400101
====
RP
D,year,1
window = [\"RP.D\"]
--
       01  D PIC 9(6).
           88  R VALUE 500101 THRU 991231.
--
--
program,item,at,mode,old,new
RP,D,RP.cbl:5:8,windowed,9(6),9(6)
====
SE
YY,year,1
window = [\"SE.YY\"]
--
       01  YY PIC 9(2).
--
           ADD 1 TO YY ON SIZE ERROR CONTINUE.
--
limit SizeErrorInWindow SE.cbl:8:12 50
====
SE
YY,year,1
window = [\"SE.YY\"]
--
       01  YY PIC 9(2).
--
           ADD 1 TO YY.
--
program,item,at,mode,old,new
SE,YY,SE.cbl:5:8,windowed,9(2),9(2)
====
P16B
A,year,1
window = [\"P16B.A\"]
--
       01  A PIC 9(6).
       01  B PIC 9(6).
--
           IF A = B CONTINUE.
           MOVE A TO B.
--
limit MixedCompare P16B.cbl:9:12 P16B A 0
====
P16B
A,year,1
window = [\"P16B.A\", \"P16B.B\"]
--
       01  A PIC 9(6).
       01  B PIC 9(6).
--
           IF A = B CONTINUE.
           MOVE A TO B.
--
program,item,at,mode,old,new
P16B,A,P16B.cbl:5:8,windowed,9(6),9(6)
P16B,B,P16B.cbl:6:8,windowed,9(6),9(6)
====
P17
BIRTH,year,1
window = [{ pivot = 10, items = [\"P17.BIRTH\"] }, { pivot = 50, items = [\"P17.DUE\"] }]
--
       01  BIRTH PIC 9(6).
       01  DUE PIC 9(6).
--
           MOVE BIRTH TO DUE.
--
limit PivotClash P17.cbl:9:12 P17 DUE 0
====
P17
BIRTH,year,1
window = [{ pivot = 50, items = [\"P17.BIRTH\"] }, { pivot = 50, items = [\"P17.DUE\"] }]
--
       01  BIRTH PIC 9(6).
       01  DUE PIC 9(6).
--
           MOVE BIRTH TO DUE.
--
program,item,at,mode,old,new
P17,BIRTH,P17.cbl:5:8,windowed,9(6),9(6)
P17,DUE,P17.cbl:6:8,windowed,9(6),9(6)
====
P17
BIRTH,year,1
window = [{ pivot = 10, items = [\"P17.BIRTH\"] }, { pivot = 10, items = [\"P17.BIRTH\"] }]
--
       01  BIRTH PIC 9(6).
       01  DUE PIC 9(6).
--
           MOVE BIRTH TO DUE.
--
program,item,at,mode,old,new
P17,BIRTH,P17.cbl:5:8,windowed,9(6),9(6)
P17,DUE,P17.cbl:6:8,expanded,9(6),9(8)
====
";

#[test]
fn limits_of_entries_just_hold_and_just_do_not(rt: HostRuntime) -> Result<(), Fail> {
    let count = count_holding(rt.alloc(), LIMITS_OF_ENTRIES)?;
    assert_eq!(rt; count, 10);
    Ok(())
}

#[test]
fn limits_of_statements_just_hold_and_just_do_not(rt: HostRuntime) -> Result<(), Fail> {
    let count = count_holding(rt.alloc(), LIMITS_OF_STATEMENTS)?;
    assert_eq!(rt; count, 10);
    Ok(())
}

#[test]
fn limits_of_windows_just_hold_and_just_do_not(rt: HostRuntime) -> Result<(), Fail> {
    let count = count_holding(rt.alloc(), LIMITS_OF_WINDOWS)?;
    assert_eq!(rt; count, 13);
    Ok(())
}

/// A conflict, where a limit would stand too, and a plan.
const CONFLICT_AND_PLAN: &str = "P20
D,year,1

--
       01  MD PIC 9(4).
       01  D PIC 9(6).
       01  E PIC 9(18).
--
           MOVE MD TO D.
           MOVE D TO E.
--
====
P
YY,year,1

--
       01  YY PIC 9(2).
--
--
program,item,at,mode,old,new
P,YY,P.cbl:5:8,expanded,9(2),9(4)
====
";

#[test]
fn conflicts_come_before_limits_and_faults_of_the_outside_have_their_status(
    rt: HostRuntime,
) -> Result<(), Fail> {
    let alloc = rt.alloc();
    let Some((conflict, more)) = next_case(CONFLICT_AND_PLAN) else {
        return Err(Fail::new("the table has no case"));
    };
    let conflicts = plan_failing(alloc, conflict, 0, 0)?;
    assert_eq!(rt; conflicts.status, 1);
    let Some((case, _)) = next_case(more) else {
        return Err(Fail::new("the table has no case"));
    };
    let planned = plan_failing(alloc, case, 0, 0)?;
    assert_eq!(rt; planned.status, 0);
    assert_eq!(rt; planned.printed.as_slice(), case.wanted.as_bytes());
    let unread = plan_failing(alloc, case, 1, 0)?;
    assert_eq!(rt; unread.status, 6);
    let unprinted = plan_failing(alloc, case, 0, 1)?;
    assert_eq!(rt; unprinted.status, 7);
    Ok(())
}
