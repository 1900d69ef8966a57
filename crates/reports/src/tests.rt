use super::*;
use cobol_syntax::Program;
use conflict_chain::{Chain, ChainStep, Conflict, Why};
use data_layout::{Area, Layout, Portfolio, lay_out};
use std::alloc::Global;
use std::test::Fail;
use y2k_base::{AreaId, BytePlace, Bytes, FileId, List, Memory, Origin, Text, TextRole, Texts};
use year_labels::{Fact, Label, Labelling, Rule, RuleForm, RuleInst};

/// The name of a program, and those of its areas.
type Named<'a> = (&'a str, &'a [Option<&'a str>]);

pub(crate) fn bytes_of(alloc: Global, text: &str) -> Result<Bytes, Memory> {
    let mut bytes = List::new(alloc);
    bytes.append(text.as_bytes())?;
    Ok(bytes)
}

pub(crate) fn program(alloc: Global, name: &str) -> Result<Program, Memory> {
    let id = bytes_of(alloc, name)?;
    Ok(Program {
        id,
        words: List::new(alloc),
        selects: List::new(alloc),
        files: List::new(alloc),
        storage: List::new(alloc),
        paragraphs: List::new(alloc),
    })
}

fn area(alloc: Global, name: Option<&str>) -> Result<Area, Memory> {
    let name = match name {
        Some(name) => Some(bytes_of(alloc, name)?),
        None => None,
    };
    Ok(Area {
        id: AreaId(0),
        name,
        file: false,
        length: 20,
    })
}

fn areas(alloc: Global, names: &[Option<&str>]) -> Result<List<Area>, Memory> {
    let mut areas = List::new(alloc);
    for i in 0..names.len() {
        let area = area(alloc, names[i])?;
        areas.push(area)?;
    }
    Ok(areas)
}

fn layout(alloc: Global, program: &Program, names: &[Option<&str>]) -> Result<Layout, Fail> {
    let mut layout = lay_out(alloc, program, AreaId(0))?;
    layout.areas = areas(alloc, names)?;
    Ok(layout)
}

/// A portfolio of programs with these names and areas.
fn portfolio(alloc: Global, named: &[Named]) -> Result<Portfolio, Fail> {
    let mut programs = List::new(alloc);
    let mut layouts = List::new(alloc);
    for i in 0..named.len() {
        let (name, areas) = named[i];
        let program = program(alloc, name)?;
        let layout = layout(alloc, &program, areas)?;
        programs.push(program)?;
        layouts.push(layout)?;
    }
    Ok(Portfolio {
        programs,
        layouts,
        files: List::new(alloc),
    })
}

fn fact(area: u32, offset: u32, label: Label) -> Fact {
    let area = AreaId(area);
    let place = BytePlace { area, offset };
    Fact { place, label }
}

/// Whether these facts give these rows after the header.
fn label_rows_are(
    alloc: Global,
    named: &[Named],
    facts: &[Fact],
    rows: &str,
) -> Result<bool, Fail> {
    let portfolio = portfolio(alloc, named)?;
    let mut list = List::new(alloc);
    list.append(facts)?;
    let labelling = Labelling::new(alloc, list)?;
    let report = label_rows(alloc, &portfolio, &labelling)?;
    let expected = format!(in alloc; "program,area,offset,label\n{rows}")?;
    Ok(report.items() == expected.as_bytes())
}

#[test]
fn nothing_labelled_gives_the_header_alone(rt: HostRuntime) -> Result<(), Fail> {
    let alloc = rt.alloc();
    assert!(rt; label_rows_are(alloc, &[("P", &[])], &[], "")?);
    assert!(rt; label_rows_are(alloc, &[], &[], "")?);
    Ok(())
}

#[test]
fn each_fact_has_a_row_in_order_of_places(rt: HostRuntime) -> Result<(), Fail> {
    let alloc = rt.alloc();
    let named = [("P4", [Some("REC")].as_slice())];
    let facts = [
        fact(0, 7, Label::Units),
        fact(0, 0, Label::Tens),
        fact(0, 6, Label::Tens),
        fact(0, 1, Label::Units),
    ];
    let rows = "P4,REC,0,T\nP4,REC,1,U\nP4,REC,6,T\nP4,REC,7,U\n";
    assert!(rt; label_rows_are(alloc, &named, &facts, rows)?);
    Ok(())
}

#[test]
fn occurrences_of_a_table_have_rows_each(rt: HostRuntime) -> Result<(), Fail> {
    let alloc = rt.alloc();
    let named = [("P", [Some("A"), Some("T")].as_slice())];
    let facts = [
        fact(1, 0, Label::Tens),
        fact(1, 1, Label::Units),
        fact(1, 6, Label::Tens),
        fact(1, 7, Label::Units),
        fact(1, 12, Label::Tens),
        fact(1, 13, Label::Units),
    ];
    let rows = "P,T,0,T\nP,T,1,U\nP,T,6,T\nP,T,7,U\nP,T,12,T\nP,T,13,U\n";
    assert!(rt; label_rows_are(alloc, &named, &facts, rows)?);
    Ok(())
}

#[test]
fn unlike_labels_of_a_byte_have_rows_of_their_own(rt: HostRuntime) -> Result<(), Fail> {
    let alloc = rt.alloc();
    let named = [("P", [Some("A"), Some("B")].as_slice())];
    let facts = [
        fact(1, 0, Label::Plain),
        fact(1, 0, Label::Tens),
        fact(1, 1, Label::Plain),
        fact(1, 1, Label::Units),
    ];
    let rows = "P,B,0,T\nP,B,0,P\nP,B,1,U\nP,B,1,P\n";
    assert!(rt; label_rows_are(alloc, &named, &facts, rows)?);
    Ok(())
}

/// Byte `byte` of a packed number of six digits at the front of the area, of which the first two are a year.
fn packed(area: u32, byte: u8) -> Fact {
    let label = Label::Packed {
        digits: 6,
        unit: 4,
        byte,
    };
    fact(area, byte as u32, label)
}

#[test]
fn packed_labels_name_digits_power_and_byte(rt: HostRuntime) -> Result<(), Fail> {
    let alloc = rt.alloc();
    let named = [("P", [Some("K")].as_slice())];
    let facts = [packed(0, 0), packed(0, 1), packed(0, 2), packed(0, 3)];
    let rows = "P,K,0,K6.4.0\nP,K,1,K6.4.1\nP,K,2,K6.4.2\nP,K,3,K6.4.3\n";
    assert!(rt; label_rows_are(alloc, &named, &facts, rows)?);
    Ok(())
}

#[test]
fn areas_are_numbered_over_all_programs(rt: HostRuntime) -> Result<(), Fail> {
    let alloc = rt.alloc();
    let named = [
        ("FIRST", [Some("A"), Some("B")].as_slice()),
        ("EMPTY", [].as_slice()),
        ("THIRD", [Some("A"), None].as_slice()),
    ];
    let facts = [
        fact(0, 0, Label::Tens),
        fact(1, 0, Label::Tens),
        fact(2, 0, Label::Tens),
        fact(3, 0, Label::Tens),
    ];
    let rows = "FIRST,A,0,T\nFIRST,B,0,T\nTHIRD,A,0,T\nTHIRD,FILLER,0,T\n";
    assert!(rt; label_rows_are(alloc, &named, &facts, rows)?);
    Ok(())
}

#[test]
fn an_area_that_is_not_there_has_no_program(rt: HostRuntime) -> Result<(), Fail> {
    let alloc = rt.alloc();
    let named = [("P", [Some("A")].as_slice())];
    let facts = [fact(1, 65534, Label::Plain)];
    assert!(rt; label_rows_are(alloc, &named, &facts, ",FILLER,65534,P\n")?);
    Ok(())
}

#[test]
fn a_field_is_quoted_where_it_must_be(rt: HostRuntime) -> Result<(), Fail> {
    let alloc = rt.alloc();
    let facts = [fact(0, 0, Label::Tens)];
    let cases = [
        ("Z,999", "\"Z,999\""),
        ("A\"B", "\"A\"\"B\""),
        ("\"", "\"\"\"\""),
        ("A\rB", "\"A\rB\""),
        ("A\nB", "\"A\nB\""),
        ("A B'C;D", "A B'C;D"),
        ("", ""),
    ];
    for (name, field) in cases {
        let rows = format!(in alloc; "P,{field},0,T\n")?;
        assert!(rt; label_rows_are(alloc, &[("P", &[Some(name)])], &facts, rows.as_str())?);
        let rows = format!(in alloc; "{field},A,0,T\n")?;
        assert!(rt; label_rows_are(alloc, &[(name, &[Some("A")])], &facts, rows.as_str())?);
    }
    Ok(())
}

/// Texts with these names.
pub(crate) fn texts(alloc: Global, names: &[&str]) -> Result<Texts, Memory> {
    let mut list = List::new(alloc);
    for i in 0..names.len() {
        let text = Text {
            name: bytes_of(alloc, names[i])?,
            key: List::new(alloc),
            role: TextRole::Program,
            bytes: List::new(alloc),
        };
        list.push(text)?;
    }
    Ok(Texts { list })
}

/// A rule with the text, the line and the column of its place.
type Placed = (Rule, u32, u32, u32);

/// Rules of which only their names and places matter.
fn rules(alloc: Global, placed: &[Placed]) -> Result<Vec<RuleInst>, Fail> {
    let mut rules = Vec::new(alloc);
    for i in 0..placed.len() {
        let (rule, file, line, column) = placed[i];
        let at = Origin {
            file: FileId(file),
            line,
            column,
        };
        let fact = fact(0, 0, Label::Plain);
        let form = RuleForm::Give { fact };
        rules.push(RuleInst { rule, at, form })?;
    }
    Ok(rules)
}

/// A fact and why it holds.
type Step = (Fact, Why);

fn chain(alloc: Global, steps: &[Step]) -> Result<Chain, Memory> {
    let mut list = List::new(alloc);
    for i in 0..steps.len() {
        let (fact, why) = steps[i];
        let from = List::new(alloc);
        list.push(ChainStep { fact, why, from })?;
    }
    Ok(Chain { steps: list })
}

/// Conflicts with the steps of their two sides.
type Sides<'a> = (&'a [Step], &'a [Step]);

fn conflicts(alloc: Global, sides: &[Sides]) -> Result<Vec<Conflict>, Fail> {
    let mut list = Vec::new(alloc);
    for i in 0..sides.len() {
        let (first, second) = sides[i];
        let chain1 = chain(alloc, first)?;
        let chain2 = chain(alloc, second)?;
        let place = BytePlace {
            area: AreaId(0),
            offset: 0,
        };
        list.push(Conflict {
            place,
            first: Label::Tens,
            second: Label::Plain,
            chain1,
            chain2,
        })?;
    }
    Ok(list)
}

/// What the conflicts are of: texts, programs with their areas, and rules.
#[derive(Clone, Copy)]
struct Of<'a> {
    texts: &'a [&'a str],
    named: &'a [Named<'a>],
    placed: &'a [Placed],
}

/// Whether conflicts with these sides give these rows after the header, with seeds of `seeds.csv`.
fn conflict_rows_are(alloc: Global, of: &Of, sides: &[Sides], rows: &str) -> Result<bool, Fail> {
    let texts = texts(alloc, of.texts)?;
    let portfolio = portfolio(alloc, of.named)?;
    let rules = rules(alloc, of.placed)?;
    let list = conflicts(alloc, sides)?;
    let report = conflict_rows(
        alloc,
        &texts,
        &portfolio,
        rules.as_slice(),
        list.as_slice(),
        "seeds.csv",
    )?;
    let header = "conflict,side,step,program,area,offset,label,rule,at";
    let expected = format!(in alloc; "{header}\n{rows}")?;
    Ok(report.items() == expected.as_bytes())
}

#[test]
fn no_conflict_gives_the_header_alone(rt: HostRuntime) -> Result<(), Fail> {
    let alloc = rt.alloc();
    let of = Of {
        texts: &["P.cbl"],
        named: &[("P", &[Some("A")])],
        placed: &[],
    };
    assert!(rt; conflict_rows_are(alloc, &of, &[], "")?);
    Ok(())
}

#[test]
fn a_year_in_a_division_has_two_conflicts(rt: HostRuntime) -> Result<(), Fail> {
    let alloc = rt.alloc();
    let of = Of {
        texts: &["P10.cbl"],
        named: &[("P10", &[Some("YY"), Some("Q"), Some("R")])],
        placed: &[(Rule::Plain, 0, 10, 12)],
    };
    let tens = [(fact(0, 0, Label::Tens), Why::Seed(2))];
    let plain_tens = [(fact(0, 0, Label::Plain), Why::Rule(0))];
    let units = [(fact(0, 1, Label::Units), Why::Seed(2))];
    let plain_units = [(fact(0, 1, Label::Plain), Why::Rule(0))];
    let sides = [
        (tens.as_slice(), plain_tens.as_slice()),
        (units.as_slice(), plain_units.as_slice()),
    ];
    let rows = "1,1,1,P10,YY,0,T,seed,seeds.csv:2\n\
        1,2,1,P10,YY,0,P,plain,P10.cbl:10:12\n\
        2,1,1,P10,YY,1,U,seed,seeds.csv:2\n\
        2,2,1,P10,YY,1,P,plain,P10.cbl:10:12\n";
    assert!(rt; conflict_rows_are(alloc, &of, &sides, rows)?);
    Ok(())
}

#[test]
fn steps_count_from_one_on_each_side(rt: HostRuntime) -> Result<(), Fail> {
    let alloc = rt.alloc();
    let of = Of {
        texts: &["P20.cbl"],
        named: &[("P20", &[Some("MD"), Some("D")])],
        placed: &[(Rule::Fill, 0, 9, 12)],
    };
    let tens = [(fact(1, 0, Label::Tens), Why::Seed(2))];
    let filled_tens = [
        (fact(1, 0, Label::Tens), Why::Seed(2)),
        (fact(1, 0, Label::Plain), Why::Rule(0)),
    ];
    let units = [(fact(1, 1, Label::Units), Why::Seed(2))];
    let filled_units = [
        (fact(1, 1, Label::Units), Why::Seed(2)),
        (fact(1, 1, Label::Plain), Why::Rule(0)),
    ];
    let sides = [
        (tens.as_slice(), filled_tens.as_slice()),
        (units.as_slice(), filled_units.as_slice()),
    ];
    let rows = "1,1,1,P20,D,0,T,seed,seeds.csv:2\n\
        1,2,1,P20,D,0,T,seed,seeds.csv:2\n\
        1,2,2,P20,D,0,P,fill,P20.cbl:9:12\n\
        2,1,1,P20,D,1,U,seed,seeds.csv:2\n\
        2,2,1,P20,D,1,U,seed,seeds.csv:2\n\
        2,2,2,P20,D,1,P,fill,P20.cbl:9:12\n";
    assert!(rt; conflict_rows_are(alloc, &of, &sides, rows)?);
    Ok(())
}

#[test]
fn a_chain_goes_over_several_programs(rt: HostRuntime) -> Result<(), Fail> {
    let alloc = rt.alloc();
    let of = Of {
        texts: &["lib/REC.cpy", "FIRST.cbl", "later, \"new\".cbl"],
        named: &[
            ("FIRST", &[Some("OUT-FILE"), Some("D")]),
            ("LATER", &[Some("IN-FILE")]),
        ],
        placed: &[
            (Rule::Digits, 1, 20, 12),
            (Rule::File, 0, 1, 8),
            (Rule::Plain, 2, 31, 16),
        ],
    };
    let labelled = [
        (fact(1, 0, Label::Tens), Why::Seed(17)),
        (fact(0, 6, Label::Tens), Why::Rule(0)),
        (fact(2, 6, Label::Tens), Why::Rule(1)),
    ];
    let plain = [(fact(2, 6, Label::Plain), Why::Rule(2))];
    let rows = "1,1,1,FIRST,D,0,T,seed,seeds.csv:17\n\
        1,1,2,FIRST,OUT-FILE,6,T,digits,FIRST.cbl:20:12\n\
        1,1,3,LATER,IN-FILE,6,T,file,lib/REC.cpy:1:8\n\
        1,2,1,LATER,IN-FILE,6,P,plain,\"later, \"\"new\"\".cbl:31:16\"\n";
    assert!(rt; conflict_rows_are(alloc, &of, &[(&labelled, &plain)], rows)?);
    Ok(())
}

#[test]
fn each_rule_has_its_name(rt: HostRuntime) -> Result<(), Fail> {
    let alloc = rt.alloc();
    let cases = [
        (Rule::Register, "register"),
        (Rule::Occurs, "occurs"),
        (Rule::File, "file"),
        (Rule::Origin, "origin"),
        (Rule::Bytes, "bytes"),
        (Rule::Digits, "digits"),
        (Rule::Fill, "fill"),
        (Rule::Excess, "excess"),
        (Rule::Add, "add"),
        (Rule::Subtract, "subtract"),
        (Rule::Plain, "plain"),
    ];
    for (rule, name) in cases {
        let of = Of {
            texts: &["P.cbl"],
            named: &[("P", &[None])],
            placed: &[(rule, 0, 5, 8)],
        };
        let steps = [(fact(0, 1, Label::Units), Why::Rule(0))];
        let rows = format!(in alloc; "1,1,1,P,FILLER,1,U,{name},P.cbl:5:8\n")?;
        assert!(rt; conflict_rows_are(alloc, &of, &[(&steps, &[])], rows.as_str())?);
    }
    Ok(())
}

#[test]
fn a_rule_or_a_text_that_is_not_there_prints_empty(rt: HostRuntime) -> Result<(), Fail> {
    let alloc = rt.alloc();
    let of = Of {
        texts: &[],
        named: &[("P", &[Some("A")])],
        placed: &[(Rule::Plain, 0, 5, 8)],
    };
    let steps = [
        (fact(0, 0, Label::Plain), Why::Rule(0)),
        (fact(0, 0, Label::Plain), Why::Rule(1)),
    ];
    let rows = "1,1,1,P,A,0,P,plain,:5:8\n1,1,2,P,A,0,P,,\n";
    assert!(rt; conflict_rows_are(alloc, &of, &[(&steps, &[])], rows)?);
    Ok(())
}
