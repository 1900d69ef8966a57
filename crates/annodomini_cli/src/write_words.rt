ghost use Rattle.std.specs.Prelude.{◌≡◌, ◌≢◌, ◌↔◌, ◌∷◌, [], IsTrue, IfSome, IfNone, length, map, string_bytes};
ghost use Rattle.annodomini_cli.specs.WriteWords as spec;

use crate::command::is_name;

/// The words of `convert M OUT` after the form's own.
#[derive(Clone, Copy)]
pub struct ConvertWords<'a> {
    pub main: &'a str,
    pub out: &'a str,
}

/// Three words.
#[derive(Clone, Copy)]
struct ThreeWords<'a> {
    form: &'a str,
    object: &'a str,
    out: &'a str,
}

/// The words of `convert M OUT`, where they have this form.
pub fn conversion_of(words: &[String]) -> Option<ConvertWords<'_>>
    ensures found { IfSome result (λ c. spec.IsConversion (map string_bytes words.now) c.main.now c.out.now) }
    ensures none { IfNone result (spec.IsNoConversion (map string_bytes words.now)) }
{
    match three_of(words) {
        Some(three) => conversion_in(three),
        None => None,
    }
}

fn three_of(words: &[String]) -> Option<ThreeWords<'_>>
    ensures found { IfSome result (λ t. map string_bytes words.now ≡ t.form.now ∷ t.object.now ∷ t.out.now ∷ []) }
    ensures none { IfNone result (length words.now ≢ 3) }
{
    let [form, object, out] = words else {
        return None;
    };
    Some(ThreeWords {
        form: form.as_str(),
        object: object.as_str(),
        out: out.as_str(),
    })
}

fn conversion_in(three: ThreeWords<'_>) -> Option<ConvertWords<'_>>
    ensures found { IfSome result (λ c. spec.IsConversion (three.entry.form.now ∷ three.entry.object.now ∷ three.entry.out.now ∷ []) c.main.now c.out.now) }
    ensures none { IfNone result (spec.IsNoConversion (three.entry.form.now ∷ three.entry.object.now ∷ three.entry.out.now ∷ [])) }
{
    if is_form(three.form, "convert")
        && is_name(three.object.as_bytes())
        && is_name(three.out.as_bytes())
    {
        Some(ConvertWords {
            main: three.object,
            out: three.out,
        })
    } else {
        None
    }
}

fn is_form(word: &str, form: &str) -> bool
    ensures { IsTrue result ↔ (word.now ≡ form.now) }
{
    word == form
}
