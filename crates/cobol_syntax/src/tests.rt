use super::*;
use sqlite_items::Boxed;
use std::test::Fail;
use y2k_base::{List, Twin};

fn figure(byte: u8, at: u32) -> Expr {
    Expr::One(Operand::Figure { byte, at })
}

#[test]
fn an_if_is_copied_and_taken_apart(rt: HostRuntime) -> Result<(), Fail> {
    let alloc = rt.alloc();
    let relation = Condition {
        at: 2,
        end: 5,
        form: CondForm::Relation {
            left: figure(48, 2),
            rel: Rel::Less,
            right: figure(32, 4),
        },
    };
    let test = Condition {
        at: 1,
        end: 5,
        form: CondForm::Not(Boxed::new(alloc, relation)?),
    };
    let statement = Statement {
        id: StatementId {
            program: 0,
            number: 7,
        },
        at: 0,
        end: 6,
        form: Form::If {
            test,
            yes: List::new(alloc),
            other: List::new(alloc),
        },
    };
    let copy = statement.twin(alloc)?;
    assert_eq!(rt; copy.id, statement.id);
    let mut parts = 0;
    if let Ok((test, _, _)) = copy.into_form().into_if() {
        parts += 1;
        if let Ok(inner) = test.into_form().into_not() {
            parts += 1;
            if let Ok((_, rel, _)) = inner.into_form().into_relation() {
                assert_eq!(rt; rel, Rel::Less);
                parts += 1;
            }
        }
    }
    assert_eq!(rt; parts, 3);
    Ok(())
}
