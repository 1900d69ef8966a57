use super::*;
use cobol_syntax::{
    Branch, CondForm, Condition, Control, Expr, Form, Mode, NamePair, Operand, Place, Register,
    Rel, Sentence, Statement, Vary,
};
use cond_reader::{CondNames, UnitFault};
use std::alloc::Global;
use std::test::Fail;
use y2k_base::{Bytes, FileId, List, Memory, Origin, Twin, Word, WordKind};

/// The kind of a word of these tests, by its first character. A tilde stands before a PICTURE word.
fn kind_of(spelled: &[u8]) -> WordKind {
    match spelled {
        [b'"', ..] => WordKind::Literal,
        [b'~', ..] => WordKind::Picture,
        [b'0'..=b'9', ..] => WordKind::Number,
        [b'-' | b'+', _, ..] => WordKind::Number,
        [b'A'..=b'Z', ..] => WordKind::Name,
        _ => WordKind::Mark,
    }
}

fn push(alloc: Global, words: &mut List<Word>, spelled: &[u8]) -> Result<(), Memory> {
    let mut text = List::new(alloc);
    for byte in spelled {
        if *byte != b'"' && *byte != b'~' {
            text.push(*byte)?;
        }
    }
    let origin = Origin {
        file: FileId(0),
        line: 1,
        column: 8,
    };
    words.push(Word {
        text,
        kind: kind_of(spelled),
        origin,
    })
}

/// The words of a text, parted by blanks.
fn push_all(alloc: Global, words: &mut List<Word>, text: &[u8]) -> Result<(), Memory> {
    for spelled in text.split(|byte| *byte == b' ') {
        push(alloc, words, spelled)?;
    }
    Ok(())
}

fn add(out: &mut Bytes, text: &[u8]) -> Result<(), Memory> {
    out.append(text)
}

fn add_number(alloc: Global, out: &mut Bytes, number: u32) -> Result<(), Memory> {
    let text = format!(in alloc; "{number}")?;
    out.append(text.as_bytes())
}

fn show_place(place: &Place, out: &mut Bytes) -> Result<(), Memory> {
    for name in place.names.items() {
        add(out, name.items())?;
    }
    if !place.subs.is_empty() {
        add(out, b"()")?;
    }
    Ok(())
}

fn show_operand(alloc: Global, operand: &Operand, out: &mut Bytes) -> Result<(), Memory> {
    match operand {
        Operand::Place(place) => show_place(place, out),
        Operand::Number { value, .. } => {
            let text = format!(in alloc; "{}", value.number)?;
            add(out, text.as_bytes())
        }
        Operand::Text { bytes, .. } => {
            add(out, b"\"")?;
            add(out, bytes.items())
        }
        Operand::Figure { .. } => add(out, b"figure"),
    }
}

fn show_pair(
    alloc: Global,
    left: &Expr,
    sign: &[u8],
    right: &Expr,
    out: &mut Bytes,
) -> Result<(), Memory> {
    add(out, b"(")?;
    show_expr(alloc, left, out)?;
    add(out, sign)?;
    show_expr(alloc, right, out)?;
    add(out, b")")
}

fn show_expr(alloc: Global, expr: &Expr, out: &mut Bytes) -> Result<(), Memory> {
    match expr {
        Expr::One(operand) => show_operand(alloc, operand, out),
        Expr::Minus(inner) => {
            add(out, b"-")?;
            show_expr(alloc, inner.get(), out)
        }
        Expr::Add(left, right) => {
            add(out, b"(")?;
            show_expr(alloc, left.get(), out)?;
            add(out, b"+")?;
            show_expr(alloc, right.get(), out)?;
            add(out, b")")
        }
        Expr::Sub(left, right) => {
            add(out, b"(")?;
            show_expr(alloc, left.get(), out)?;
            add(out, b"-")?;
            show_expr(alloc, right.get(), out)?;
            add(out, b")")
        }
        Expr::Mul(left, right) => {
            add(out, b"(")?;
            show_expr(alloc, left.get(), out)?;
            add(out, b"*")?;
            show_expr(alloc, right.get(), out)?;
            add(out, b")")
        }
        Expr::Div(left, right) => {
            add(out, b"(")?;
            show_expr(alloc, left.get(), out)?;
            add(out, b"/")?;
            show_expr(alloc, right.get(), out)?;
            add(out, b")")
        }
    }
}

fn show_form(alloc: Global, form: &CondForm, out: &mut Bytes) -> Result<(), Memory> {
    match form {
        CondForm::Relation { left, rel, right } => {
            let sign: &[u8] = match rel {
                Rel::Equal => b"=",
                Rel::Less => b"<",
                Rel::Greater => b">",
            };
            show_pair(alloc, left, sign, right, out)
        }
        CondForm::Class { of, .. } => {
            add(out, b"class ")?;
            show_place(of, out)
        }
        CondForm::Sign { of, .. } => {
            add(out, b"sign ")?;
            show_expr(alloc, of, out)
        }
        CondForm::Named(place) => show_place(place, out),
        CondForm::Not(inner) => {
            add(out, b"!")?;
            show_form(alloc, &inner.get().form, out)
        }
        CondForm::And(left, right) => {
            show_form(alloc, &left.get().form, out)?;
            add(out, b"&")?;
            show_form(alloc, &right.get().form, out)
        }
        CondForm::Or(left, right) => {
            show_form(alloc, &left.get().form, out)?;
            add(out, b"|")?;
            show_form(alloc, &right.get().form, out)
        }
    }
}

/// A condition, with the positions of its words.
fn show_condition(alloc: Global, test: &Condition, out: &mut Bytes) -> Result<(), Memory> {
    show_form(alloc, &test.form, out)?;
    let text = format!(in alloc; "@{}-{}", test.at, test.end)?;
    add(out, text.as_bytes())
}

fn show_maybe_place(place: &Option<Place>, before: &[u8], out: &mut Bytes) -> Result<(), Memory> {
    match place {
        None => Ok(()),
        Some(place) => {
            add(out, before)?;
            show_place(place, out)
        }
    }
}

fn show_maybe_operand(
    alloc: Global,
    operand: &Option<Operand>,
    before: &[u8],
    out: &mut Bytes,
) -> Result<(), Memory> {
    match operand {
        None => Ok(()),
        Some(operand) => {
            add(out, before)?;
            show_operand(alloc, operand, out)
        }
    }
}

fn show_vary(alloc: Global, vary: &Option<Vary>, out: &mut Bytes) -> Result<(), Memory> {
    match vary {
        None => Ok(()),
        Some(vary) => {
            add(out, b" vary ")?;
            show_place(&vary.item, out)?;
            add(out, b",")?;
            show_operand(alloc, &vary.from, out)?;
            add(out, b",")?;
            show_operand(alloc, &vary.by, out)
        }
    }
}

fn show_control(alloc: Global, control: &Control, out: &mut Bytes) -> Result<(), Memory> {
    match control {
        Control::Once => Ok(()),
        Control::Times(count) => {
            add(out, b" times ")?;
            show_operand(alloc, count, out)
        }
        Control::Until { after, test, vary } => {
            add(out, if *after { b" after" } else { b" before" })?;
            show_vary(alloc, vary, out)?;
            add(out, b" until ")?;
            show_condition(alloc, test, out)
        }
    }
}

fn show_range(range: &Option<NamePair>, out: &mut Bytes) -> Result<(), Memory> {
    match range {
        None => Ok(()),
        Some(pair) => {
            add(out, b" ")?;
            add(out, pair.first.items())?;
            add(out, b"..")?;
            add(out, pair.last.items())
        }
    }
}

fn mode_text(mode: Mode) -> &'static [u8] {
    match mode {
        Mode::Input => b"open input ",
        Mode::Output => b"open output ",
        Mode::Extend => b"open extend ",
    }
}

fn register_text(register: Register) -> &'static [u8] {
    match register {
        Register::Date => b" date",
        Register::Day => b" day",
        Register::Time => b" time",
    }
}

#[cycle(show)]
fn show_branch(alloc: Global, branch: &Option<Branch>, out: &mut Bytes) -> Result<(), Memory> {
    match branch {
        None => Ok(()),
        Some(branch) => {
            show_list(alloc, &branch.yes, out)?;
            show_list(alloc, &branch.no, out)
        }
    }
}

#[cycle(show)]
fn show_list(alloc: Global, list: &List<Statement>, out: &mut Bytes) -> Result<(), Memory> {
    add(out, b" [")?;
    for statement in list.items() {
        show_statement(alloc, statement, out)?;
    }
    add(out, b"]")
}

/// A statement with its number, the positions of its words, and what it does.
#[cycle(show)]
fn show_statement(alloc: Global, statement: &Statement, out: &mut Bytes) -> Result<(), Memory> {
    let text = format!(in alloc;
        "#{}@{}-{} ",
        statement.id.number, statement.at, statement.end
    )?;
    add(out, text.as_bytes())?;
    show_action(alloc, &statement.form, out)
}

/// What a statement does.
#[cycle(show)]
fn show_action(alloc: Global, form: &Form, out: &mut Bytes) -> Result<(), Memory> {
    match form {
        Form::Compute {
            to,
            rounded,
            value,
            rest,
            size,
        } => {
            show_place(to, out)?;
            add(out, if *rounded { b" rounded=" } else { b"=" })?;
            show_expr(alloc, value, out)?;
            show_maybe_place(rest, b" rest ", out)?;
            show_branch(alloc, size, out)
        }
        Form::If { test, yes, other } => {
            add(out, b"if ")?;
            show_condition(alloc, test, out)?;
            show_list(alloc, yes, out)?;
            show_list(alloc, other, out)
        }
        Form::Perform {
            range,
            body,
            control,
        } => {
            add(out, b"perform")?;
            show_range(range, out)?;
            show_control(alloc, control, out)?;
            show_list(alloc, body, out)
        }
        Form::Read { file, into, end } => {
            add(out, b"read ")?;
            add(out, file.items())?;
            show_maybe_place(into, b" into ", out)?;
            show_branch(alloc, end, out)
        }
        form => show_simple(alloc, form, out),
    }
}

/// What a statement does that holds no other.
fn show_simple(alloc: Global, form: &Form, out: &mut Bytes) -> Result<(), Memory> {
    match form {
        Form::Move { from, to } => {
            add(out, b"move ")?;
            show_operand(alloc, from, out)?;
            add(out, b" ")?;
            show_place(to, out)
        }
        Form::NextSentence => add(out, b"next"),
        Form::GoTo { name } => {
            add(out, b"go ")?;
            add(out, name.items())
        }
        Form::Stop => add(out, b"stop"),
        Form::Nothing => add(out, b"nothing"),
        Form::Open { mode, file } => {
            add(out, mode_text(*mode))?;
            add(out, file.items())
        }
        Form::Close { file } => {
            add(out, b"close ")?;
            add(out, file.items())
        }
        Form::Write {
            name,
            from,
            advance,
        } => {
            add(out, b"write ")?;
            add(out, name.items())?;
            show_maybe_operand(alloc, from, b" from ", out)?;
            show_maybe_operand(alloc, advance, b" advance ", out)
        }
        Form::Accept { to, from } => {
            add(out, b"accept ")?;
            show_place(to, out)?;
            add(out, register_text(*from))
        }
        Form::Show { operands } => {
            add(out, b"show")?;
            for operand in operands.items() {
                add(out, b" ")?;
                show_operand(alloc, operand, out)?;
            }
            Ok(())
        }
        _ => Ok(()),
    }
}

/// The sentence of these words from a position on, whose statements are numbered from 7 on, with the position after
/// it and the next number, as a text; or the fault.
fn read(alloc: Global, words: &List<Word>, from: u32) -> Result<Bytes, Memory> {
    let mut names = List::new(alloc);
    let mut flag = List::new(alloc);
    flag.append(b"FLAG")?;
    names.push(flag)?;
    let names = CondNames { list: names };
    let mut out = List::new(alloc);
    if words.items().len() >= 4_294_967_296 || from as usize >= words.items().len() {
        return Ok(out);
    }
    match read_sentence(alloc, words.items(), from, &names, 0, 7) {
        Ok((sentence, end, number)) => {
            for statement in sentence.statements.items() {
                show_statement(alloc, statement, &mut out)?;
            }
            let text = format!(in alloc; " {end} {number}")?;
            add(&mut out, text.as_bytes())?;
        }
        Err(UnitFault::UnitShape(_)) => add(&mut out, b"shape")?,
        Err(UnitFault::NestDeep(_)) => add(&mut out, b"deep")?,
        Err(UnitFault::Memory) => return Err(Memory),
    }
    Ok(out)
}

/// The same for the words of a text, parted by blanks.
fn read_text(alloc: Global, text: &[u8]) -> Result<Bytes, Memory> {
    let mut words = List::new(alloc);
    push_all(alloc, &mut words, text)?;
    read(alloc, &words, 0)
}

#[test]
fn arithmetic_is_read_as_what_it_computes(rt: HostRuntime) -> Result<(), Fail> {
    for (text, want) in [
        (
            b"ADD 1 A TO B .".as_slice(),
            b"#7@0-5 B=((1+A)+B) 6 8".as_slice(),
        ),
        (
            b"ADD 1 TO B ROUNDED C END-ADD .",
            b"#7@0-7 B rounded=(1+B)#8@0-7 C=(1+C) 8 9",
        ),
        (b"ADD A B GIVING C D .", b"#7@0-6 C=(A+B)#8@0-6 D=(A+B) 7 9"),
        (b"ADD A TO B GIVING C .", b"#7@0-6 C=(A+B) 7 8"),
        (b"ADD A TO B C GIVING D .", b"shape"),
        (b"ADD TO B .", b"shape"),
        (b"ADD A .", b"shape"),
        (b"SUBTRACT A B FROM C .", b"#7@0-5 C=(C-(A+B)) 6 8"),
        (
            b"SUBTRACT A FROM 9 GIVING C END-SUBTRACT .",
            b"#7@0-7 C=(9-A) 8 8",
        ),
        (b"SUBTRACT A FROM 9 .", b"shape"),
        (b"MULTIPLY A BY B C .", b"#7@0-5 B=(A*B)#8@0-5 C=(A*C) 6 9"),
        (
            b"MULTIPLY A BY 2 GIVING C END-MULTIPLY .",
            b"#7@0-7 C=(A*2) 8 8",
        ),
        (b"MULTIPLY A B BY C .", b"shape"),
        (b"DIVIDE A INTO B .", b"#7@0-4 B=(B/A) 5 8"),
        (
            b"DIVIDE A INTO B GIVING C D .",
            b"#7@0-7 C=(B/A)#8@0-7 D=(B/A) 8 9",
        ),
        (
            b"DIVIDE A BY B GIVING C REMAINDER D END-DIVIDE .",
            b"#7@0-9 C=(A/B) rest D 10 8",
        ),
        (b"DIVIDE A BY B .", b"shape"),
        (b"DIVIDE A INTO B REMAINDER C .", b"shape"),
        (b"DIVIDE A BY B GIVING C D REMAINDER E .", b"shape"),
        (
            b"COMPUTE A B ROUNDED = C * 2 END-COMPUTE .",
            b"#7@0-9 A=(C*2)#8@0-9 B rounded=(C*2) 10 9",
        ),
        (b"COMPUTE A C .", b"shape"),
        (
            b"ADD 1 TO A ON SIZE ERROR STOP RUN NOT ON SIZE ERROR CONTINUE END-ADD .",
            b"#7@0-15 A=(1+A) [#8@7-9 stop] [#9@13-14 nothing] 16 10",
        ),
        (
            b"ADD 1 TO A B SIZE ERROR EXIT .",
            b"#7@0-8 A=(1+A)#8@0-8 B=(1+B) [#9@7-8 nothing] [] 9 10",
        ),
        (
            b"ADD 1 TO A NOT SIZE ERROR EXIT .",
            b"#7@0-8 A=(1+A) [] [#8@7-8 nothing] 9 9",
        ),
        (b"ADD 1 TO A ON SIZE ERROR .", b"shape"),
        (b"ADD 1 TO A ON ERROR EXIT .", b"shape"),
        (b"ADD 1 TO A END-SUBTRACT .", b"shape"),
    ] {
        let got = read_text(rt.alloc(), text)?;
        assert_eq!(rt; got.items(), want);
    }
    Ok(())
}

#[test]
fn statements_without_others_inside_are_read(rt: HostRuntime) -> Result<(), Fail> {
    for (text, want) in [
        (
            b"MOVE A TO B C .".as_slice(),
            b"#7@0-5 move A B#8@0-5 move A C 6 9".as_slice(),
        ),
        (b"MOVE SPACE TO B .", b"#7@0-4 move figure B 5 8"),
        (b"MOVE A B .", b"shape"),
        (b"MOVE A TO .", b"shape"),
        (b"MOVE TO B .", b"shape"),
        (b"MOVE A TO 1 .", b"shape"),
        (b"GO TO P .", b"#7@0-3 go P 4 8"),
        (b"GO P .", b"#7@0-2 go P 3 8"),
        (b"GO TO .", b"shape"),
        (b"STOP RUN .", b"#7@0-2 stop 3 8"),
        (b"STOP .", b"shape"),
        (b"EXIT CONTINUE . EXIT", b"#7@0-1 nothing#8@1-2 nothing 3 9"),
        (
            b"OPEN INPUT F G OUTPUT H .",
            b"#7@0-6 open input F#8@0-6 open input G#9@0-6 open output H 7 10",
        ),
        (b"OPEN EXTEND F .", b"#7@0-3 open extend F 4 8"),
        (b"OPEN F .", b"shape"),
        (b"OPEN INPUT .", b"shape"),
        (b"OPEN INPUT F OUTPUT .", b"shape"),
        (b"CLOSE F G .", b"#7@0-3 close F#8@0-3 close G 4 9"),
        (b"CLOSE .", b"shape"),
        (
            b"WRITE R FROM A AFTER ADVANCING 2 LINES END-WRITE .",
            b"#7@0-9 write R from A advance 2 10 8",
        ),
        (b"WRITE R BEFORE PAGE .", b"#7@0-4 write R 5 8"),
        (b"WRITE R AFTER 1 LINE .", b"#7@0-5 write R advance 1 6 8"),
        (b"WRITE R AFTER .", b"shape"),
        (b"WRITE .", b"shape"),
        (b"ACCEPT A FROM DATE .", b"#7@0-4 accept A date 5 8"),
        (b"ACCEPT A FROM DAY .", b"#7@0-4 accept A day 5 8"),
        (b"ACCEPT A FROM TIME .", b"#7@0-4 accept A time 5 8"),
        (b"ACCEPT A .", b"shape"),
        (b"DISPLAY \"X A ( 1 ) 2 .", b"#7@0-7 show \"X A() 2 8 8"),
        (b"DISPLAY .", b"shape"),
        (b"PERFORM P .", b"#7@0-2 perform P..P [] 3 8"),
        (
            b"PERFORM P THRU Q 3 TIMES .",
            b"#7@0-6 perform P..Q times 3 [] 7 8",
        ),
        (b"EXIT", b"shape"),
        (b".", b"shape"),
        (b"A .", b"shape"),
        (b"NEXT SENTENCE .", b"shape"),
        (b"~MOVE A TO B .", b"shape"),
        (b"END-IF .", b"shape"),
    ] {
        let got = read_text(rt.alloc(), text)?;
        assert_eq!(rt; got.items(), want);
    }
    Ok(())
}

#[test]
fn else_when_and_phrases_belong_to_the_nearest_statement(rt: HostRuntime) -> Result<(), Fail> {
    for (text, want) in [
        (
            b"IF A = 1 IF B = 2 MOVE 1 TO C ELSE MOVE 2 TO C .".as_slice(),
            b"#7@0-17 if (A=1)@1-4 [#8@4-17 if (B=2)@5-8 [#9@8-12 move 1 C] [#10@13-17 move 2 C]] [] 18 11".as_slice(),
        ),
        (
            b"IF A = 1 THEN NEXT SENTENCE ELSE NEXT SENTENCE END-IF .",
            b"#7@0-11 if (A=1)@1-4 [#8@5-7 next] [#9@8-10 next] 12 10",
        ),
        (
            b"IF FLAG EXIT END-IF CONTINUE .",
            b"#7@0-4 if FLAG@1-2 [#8@2-3 nothing] []#9@4-5 nothing 6 10",
        ),
        (b"IF A = 1 THEN .", b"shape"),
        (b"IF FLAG EXIT ELSE .", b"shape"),
        (
            b"EVALUATE A WHEN 1 WHEN 2 CONTINUE WHEN OTHER STOP RUN END-EVALUATE .",
            b"#7@0-12 if (A=1)|(A=2)@3-6 [#8@6-7 nothing] [#9@9-11 stop] 13 10",
        ),
        (
            b"EVALUATE TRUE WHEN A = 1 EXIT WHEN FLAG EXIT EXIT WHEN OTHER NEXT SENTENCE .",
            b"#7@0-15 if (A=1)@3-6 [#8@6-7 nothing] [#9@7-15 if FLAG@8-9 [#10@9-10 nothing#11@10-11 nothing] [#12@13-15 next]] 16 13",
        ),
        (
            b"EVALUATE TRUE WHEN FLAG EVALUATE A WHEN 1 EXIT WHEN B = 2 EXIT .",
            b"#7@0-14 if FLAG@3-4 [#8@4-9 if (A=1)@7-8 [#9@8-9 nothing] []] [#10@9-14 if (B=2)@10-13 [#11@13-14 nothing] []] 15 12",
        ),
        (b"EVALUATE A WHEN OTHER EXIT .", b"shape"),
        (b"EVALUATE A WHEN 1 WHEN OTHER EXIT .", b"shape"),
        (b"EVALUATE A EXIT .", b"shape"),
        (
            b"PERFORM P THROUGH Q WITH TEST AFTER UNTIL A = 1 .",
            b"#7@0-11 perform P..Q after until (A=1)@8-11 [] 12 8",
        ),
        (
            b"PERFORM P VARYING I FROM 1 BY 2 UNTIL A = 1 .",
            b"#7@0-12 perform P..P before vary I,1,2 until (A=1)@9-12 [] 13 8",
        ),
        (
            b"PERFORM N TIMES EXIT END-PERFORM .",
            b"#7@0-5 perform times N [#8@3-4 nothing] 6 9",
        ),
        (
            b"PERFORM TEST BEFORE UNTIL FLAG EXIT CONTINUE END-PERFORM .",
            b"#7@0-8 perform before until FLAG@4-5 [#8@5-6 nothing#9@6-7 nothing] 9 10",
        ),
        (
            b"PERFORM EXIT END-PERFORM .",
            b"#7@0-3 perform [#8@1-2 nothing] 4 9",
        ),
        (b"PERFORM N TIMES .", b"shape"),
        (b"PERFORM EXIT .", b"shape"),
        (b"PERFORM P VARYING I FROM 1 UNTIL FLAG .", b"shape"),
        (
            b"PERFORM WITH AFTER UNTIL FLAG EXIT END-PERFORM .",
            b"shape",
        ),
        (
            b"READ F NEXT RECORD INTO A AT END EXIT NOT AT END CONTINUE END-READ .",
            b"#7@0-14 read F into A [#8@8-9 nothing] [#9@12-13 nothing] 15 10",
        ),
        (b"READ F .", b"#7@0-2 read F 3 8"),
        (
            b"READ F END EXIT .",
            b"#7@0-4 read F [#8@3-4 nothing] [] 5 9",
        ),
        (
            b"READ F AT END ADD 1 TO A NOT AT END EXIT .",
            b"#7@0-12 read F [#8@4-8 A=(1+A)] [#9@11-12 nothing] 13 10",
        ),
        (b"READ F AT EXIT .", b"shape"),
        (b"READ F INTO 1 .", b"shape"),
    ] {
        let got = read_text(rt.alloc(), text)?;
        assert_eq!(rt; got.items(), want);
    }
    Ok(())
}

/// What is read of this many IF inside one another.
fn read_nested(alloc: Global, depth: u32) -> Result<Bytes, Memory> {
    let mut words = List::new(alloc);
    for _ in 0..depth {
        push_all(alloc, &mut words, b"IF FLAG")?;
    }
    push_all(alloc, &mut words, b"EXIT .")?;
    read(alloc, &words, 0)
}

#[test]
fn at_most_64_levels_are_open_at_once(rt: HostRuntime) -> Result<(), Fail> {
    let fits = read_nested(rt.alloc(), 64)?;
    assert!(rt; fits.items().ends_with(b" 130 72"));
    let deep = read_nested(rt.alloc(), 65)?;
    assert_eq!(rt; deep.items(), b"deep".as_slice());
    Ok(())
}

/// How many IF stand in the chain that these statements begin, one in the ELSE of the other; at most 30,000.
fn chain_length(mut list: &List<Statement>) -> u32 {
    for length in 0..30_000u32 {
        match list.items() {
            [one] => match &one.form {
                Form::If {
                    test: _,
                    yes: _,
                    other,
                } => list = other,
                _ => return length,
            },
            _ => return length,
        }
    }
    30_000
}

/// What is read of a sentence of a head, a part that is repeated 20,000 times, and an end: the length of the chain of
/// IF that its statements begin, and of that of their twin, the position after it, and the next number. Both trees are
/// let go.
fn read_long(alloc: Global, head: &[u8], part: &[u8], end: &[u8]) -> Result<Bytes, Memory> {
    let mut words = List::new(alloc);
    push_all(alloc, &mut words, head)?;
    for _ in 0..20_000 {
        push_all(alloc, &mut words, part)?;
    }
    push_all(alloc, &mut words, end)?;
    let names = CondNames {
        list: List::new(alloc),
    };
    let mut out = List::new(alloc);
    if words.items().len() >= 4_294_967_296 || words.items().is_empty() {
        return Ok(out);
    }
    match read_sentence(alloc, words.items(), 0, &names, 0, 0) {
        Ok((sentence, end, number)) => {
            let twin = sentence.twin(alloc)?;
            let length = chain_length(&sentence.statements);
            let again = chain_length(&twin.statements);
            let text = format!(in alloc; "{length} {again} {end} {number}")?;
            add(&mut out, text.as_bytes())?;
        }
        Err(_) => {}
    }
    Ok(out)
}

#[test]
fn long_chains_are_read_and_let_go(rt: HostRuntime) -> Result<(), Fail> {
    let alloc = rt.alloc();
    let bodies = read_long(alloc, b"EVALUATE A", b"WHEN 1 EXIT", b".")?;
    assert_eq!(rt; bodies.items(), b"20000 20000 60003 40000".as_slice());
    let one_body = read_long(alloc, b"EVALUATE A", b"WHEN 1", b"EXIT .")?;
    assert_eq!(rt; one_body.items(), b"1 1 40004 2".as_slice());
    let sum = read_long(alloc, b"COMPUTE A = 1", b"+ 1", b".")?;
    assert_eq!(rt; sum.items(), b"0 0 40005 1".as_slice());
    let relations = read_long(alloc, b"IF A = 1", b"AND 1", b"EXIT .")?;
    assert_eq!(rt; relations.items(), b"1 1 40006 2".as_slice());
    Ok(())
}
