ghost use Rattle.std.specs.Prelude.{◌≡◌, ◌↔◌, IsTrue, IfSome, IfNone, map, string_bytes, codes};
ghost use Rattle.annodomini_cli.specs.Command.{IsOfManifest, IsLabelOne, IsNotOfManifest, IsNoLabelOne, is_shelf_name, is_part_byte};

/// The words of `label-one SRC ITEM` after the form's own.
#[derive(Clone, Copy)]
pub struct LabelOne<'a> {
    pub source: &'a str,
    pub item: &'a str,
}

/// The words of `label-one SRC ITEM`, where they have this form.
pub fn label_one_of(words: &[String]) -> Option<LabelOne<'_>>
    ensures found { IfSome result (λ c. IsLabelOne (map string_bytes words.now) c.source.now c.item.now) }
    ensures none { IfNone result (IsNoLabelOne (map string_bytes words.now)) }
{
    let [form, source, item] = words else {
        return None;
    };
    let source = source.as_str();
    let item = item.as_str();
    if !is_label_one(form.as_str()) || !is_name(source.as_bytes()) {
        return None;
    }
    Some(LabelOne { source, item })
}

fn is_label_one(word: &str) -> bool
    ensures { IsTrue result ↔ (word.now ≡ codes "label-one") }
{
    word == "label-one"
}

/// The name of the manifest in the words of `label M`, of `plan M`, or of another form of one manifest, where they have this
/// form.
pub fn manifest_of<'a>(words: &'a [String], form: &str) -> Option<&'a str>
    ensures found { IfSome result (λ main. IsOfManifest form.now (map string_bytes words.now) main.now) }
    ensures none { IfNone result (IsNotOfManifest form.now (map string_bytes words.now)) }
{
    let [word, main] = words else {
        return None;
    };
    let main = main.as_str();
    if !is_form(word.as_str(), form) || !is_name(main.as_bytes()) {
        return None;
    }
    Some(main)
}

fn is_form(word: &str, form: &str) -> bool
    ensures { IsTrue result ↔ (word.now ≡ form.now) }
{
    word == form
}

/// Whether the bytes are parts of letters, digits, points, hyphens and underscores joined by slashes, no
/// part empty or of points alone.
pub(crate) fn is_name(name: &[u8]) -> bool
    ensures { result ≡ is_shelf_name name.now }
{
    let mut seen = false;
    for b in name {
        if *b == b'/' {
            if !seen {
                return false;
            }
            seen = false;
        } else if is_part(*b) {
            seen = true;
        } else if *b != b'.' {
            return false;
        }
    }
    seen
}

/// Whether the byte may stand in a part, and is no point.
fn is_part(b: u8) -> bool
    ensures { result ≡ is_part_byte b }
{
    b.is_ascii_alphanumeric() || b == b'-' || b == b'_'
}
