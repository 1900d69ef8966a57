ghost use Rattle.std.specs.Prelude.{◌≡◌, ◌++◌, ◌∷◌, [], OnOk, IfSome, IfNone, Some, drop, if◌then◌else◌};
ghost use Rattle.y2k_base.specs.declared.word.Origin.{Origin as AnyOrigin};
ghost use Rattle.date_views.specs.Uses as uses;
ghost use Rattle.date_types.specs.Pictures as spec;

use cobol_syntax::Program;
use data_layout::{Item, Layout};
use statement_rules::origin_at;
use std::alloc::Global;
use std::collections::BTreeMap;
use y2k_base::{List, Memory, Origin, Span, Word, WordKind};
use year_labels::{Rule, RuleForm, RuleInst};

/// An item with the place of its PICTURE word, and that of its level number.
#[derive(Clone, Copy, Debug, PartialEq, Eq)]
pub(crate) struct Pictured {
    pub origin: Origin,
    pub span: Span,
    pub at: Origin,
}

/// The longest item of each PICTURE word.
#[derive(Drop)]
pub(crate) struct Longest {
    items: BTreeMap<Origin, Pictured>,
}

impl Longest {
    fn new(alloc: Global) -> Longest
        ensures { spec.held result ≡ spec.none }
    {
        Longest {
            items: BTreeMap::new(alloc),
        }
    }

    fn of(&self, origin: Origin) -> Option<Pictured>
        ensures { result ≡ spec.held self.now origin }
    {
        self.items.get(&origin).copied()
    }

    fn put(&mut self, origin: Origin, one: Pictured) -> Result<(), Memory>
        ensures { OnOk result ((other : AnyOrigin) → spec.held self.new other ≡ (if spec.are_one origin other then Some one else spec.held self.old other)) }
    {
        self.items.insert(origin, one)?;
        Ok(())
    }

    fn keep(&mut self, one: Pictured) -> Result<(), Memory>
        ensures { OnOk result (spec.held self.new ≡ spec.after (spec.held self.old) one) }
    {
        let kept = longer(self.of(one.origin), one);
        self.put(one.origin, kept)?;
        Ok(())
    }
}

fn longer(before: Option<Pictured>, one: Pictured) -> Pictured
    ensures { result ≡ spec.longer before one }
{
    match before {
        None => one,
        Some(other) => {
            if other.span.length < one.span.length {
                one
            } else {
                other
            }
        }
    }
}

fn front(span: Span, most: u32) -> Span
    ensures { result ≡ uses.front span most }
{
    Span {
        area: span.area,
        offset: span.offset,
        length: if span.length < most {
            span.length
        } else {
            most
        },
    }
}

fn is_picture(kind: WordKind) -> bool
    ensures { result ≡ spec.is_picture kind }
{
    match kind {
        WordKind::Name => false,
        WordKind::Number => false,
        WordKind::Literal => false,
        WordKind::Picture => true,
        WordKind::Mark => false,
    }
}

/// Where the first PICTURE word of these words stands.
fn first_picture(words: &[Word]) -> Option<Origin>
    ensures { result ≡ spec.first_picture words.now }
{
    let mut rest = words;
    while let [word, more @ ..] = rest {
        if is_picture(word.kind) {
            return Some(word.origin);
        }
        rest = more;
    }
    None
}

fn picture_from(words: &[Word], at: u32) -> Option<Origin>
    ensures { result ≡ spec.first_picture (drop at words.now) }
{
    let at = at as usize;
    if at <= words.len() {
        first_picture(&words[at..])
    } else {
        None
    }
}

fn add_pictured(items: &mut List<Pictured>, words: &[Word], item: &Item) -> Result<(), Memory>
    ensures { OnOk result (items.new ≡ items.old ++ spec.pictured_item words.now item.now) }
{
    if item.picture.is_none() {
        return Ok(());
    }
    match picture_from(words, item.entry_at) {
        None => Ok(()),
        Some(origin) => {
            items.push(Pictured {
                origin,
                span: item.span,
                at: origin_at(words, item.entry_at),
            })?;
            Ok(())
        }
    }
}

fn add_pictured_items(
    pictured: &mut List<Pictured>,
    words: &[Word],
    items: &[Item],
) -> Result<(), Memory>
    ensures { OnOk result (pictured.new ≡ pictured.old ++ spec.pictured_items words.now items.now) }
{
    let mut rest = items;
    while let [item, more @ ..] = rest {
        add_pictured(pictured, words, item)?;
        rest = more;
    }
    Ok(())
}

/// Adds the items with their PICTURE words.
fn add_all_pictured(
    pictured: &mut List<Pictured>,
    programs: &[Program],
    layouts: &[Layout],
) -> Result<(), Memory>
    ensures { OnOk result (pictured.new ≡ pictured.old ++ spec.pictured programs.now layouts.now) }
{
    let mut programs_left = programs;
    let mut layouts_left = layouts;
    while let [program, more @ ..] = programs_left {
        match layouts_left {
            [] => return Ok(()),
            [layout, others @ ..] => {
                add_pictured_items(pictured, program.words.items(), layout.items.items())?;
                programs_left = more;
                layouts_left = others;
            }
        }
    }
    Ok(())
}

/// Adds that an item and a longer one, or one as long, are alike up to the shorter.
fn add_tie(
    rules: &mut List<RuleInst>,
    before: Option<Pictured>,
    one: Pictured,
) -> Result<(), Memory>
    ensures { OnOk result (rules.new ≡ rules.old ++ spec.tie before one) }
{
    match before {
        None => Ok(()),
        Some(other) => {
            let form = RuleForm::Alike {
                a: front(other.span, one.span.length),
                b: front(one.span, other.span.length),
            };
            rules.push(RuleInst {
                rule: Rule::Origin,
                at: one.at,
                form,
            })?;
            Ok(())
        }
    }
}

fn first_of(pictured: &[Pictured]) -> Option<(Pictured, &[Pictured])>
    ensures some { IfSome result (λ first. pictured.now ≡ first.0 ∷ first.1.now) }
    ensures none { IfNone result (pictured.now ≡ []) }
{
    match pictured {
        [] => None,
        [one, more @ ..] => Some((*one, more)),
    }
}

fn add_ties(
    rules: &mut List<RuleInst>,
    longest: &mut Longest,
    pictured: &[Pictured],
) -> Result<(), Memory>
    ensures { OnOk result (rules.new ≡ rules.old ++ spec.ties (spec.held longest.old) pictured.now) }
{
    let mut rest = pictured;
    while let Some((one, more)) = first_of(rest) {
        add_tie(rules, longest.of(one.origin), one)?;
        longest.keep(one)?;
        rest = more;
    }
    Ok(())
}

/// Adds that items with one PICTURE word are alike.
pub fn add_pictures(
    alloc: Global,
    rules: &mut List<RuleInst>,
    programs: &[Program],
    layouts: &[Layout],
) -> Result<(), Memory>
    ensures { OnOk result (rules.new ≡ rules.old ++ spec.picture_rules programs.now layouts.now) }
{
    let mut pictured = List::new(alloc);
    add_all_pictured(&mut pictured, programs, layouts)?;
    let mut longest = Longest::new(alloc);
    add_ties(rules, &mut longest, pictured.items())?;
    Ok(())
}
