use labelled_portfolio::Labelled;
use manifest_load::Opened;
use manifest_text::converted_manifest;
use reports::{label_rows, plan_rows};
use std::alloc::Global;
use text_conversion::Conversion;
use written_names::last_part;
use y2k_base::{Bytes, List, Memory, Text};

/// A file that is written after the data files, by its name in the folder.
pub(crate) struct Page {
    pub(crate) name: Bytes,
    pub(crate) bytes: Bytes,
}

impl Drop for Page {
    fn drop(self) {
        let Page {
            name: _name,
            bytes: _bytes,
        } = self;
    }
}

/// What is written after the data files: the copybooks, the programs, the manifest, the labels, the plan, and last the mark of
/// the end.
pub(crate) fn pages_of(
    alloc: Global,
    main: &str,
    opened: &Opened,
    labelled: &Labelled,
    conversion: &Conversion<'_>,
) -> Result<List<Page>, Memory> {
    let mut pages = List::new(alloc);
    add_texts(alloc, conversion.texts.list.items(), &mut pages)?;
    add_manifest(alloc, main, opened, &mut pages)?;
    add_labels(alloc, labelled, &mut pages)?;
    add_plan(alloc, labelled, conversion, &mut pages)?;
    add_done(alloc, &mut pages)?;
    Ok(pages)
}

fn add_texts(alloc: Global, texts: &[Text], pages: &mut List<Page>) -> Result<(), Memory> {
    let mut rest = texts;
    while let [text, more @ ..] = rest {
        pages.push(page_of(alloc, text.name.items(), text.bytes.items())?)?;
        rest = more;
    }
    Ok(())
}

fn page_of(alloc: Global, name: &[u8], bytes: &[u8]) -> Result<Page, Memory> {
    Ok(Page {
        name: copied(alloc, name)?,
        bytes: copied(alloc, bytes)?,
    })
}

fn copied(alloc: Global, bytes: &[u8]) -> Result<Bytes, Memory> {
    let mut copy = List::new(alloc);
    copy.append(bytes)?;
    Ok(copy)
}

fn add_manifest(
    alloc: Global,
    main: &str,
    opened: &Opened,
    pages: &mut List<Page>,
) -> Result<(), Memory> {
    let name = copied(alloc, last_part(main.as_bytes()))?;
    let bytes = converted_manifest(alloc, opened.text.items())?;
    pages.push(Page { name, bytes })
}

fn add_labels(alloc: Global, labelled: &Labelled, pages: &mut List<Page>) -> Result<(), Memory> {
    let portfolio = &labelled.seeded.gathered.portfolio;
    let name = copied(alloc, b"labels.csv")?;
    let bytes = label_rows(alloc, portfolio, &labelled.labels.labelling)?;
    pages.push(Page { name, bytes })
}

fn add_plan(
    alloc: Global,
    labelled: &Labelled,
    conversion: &Conversion<'_>,
    pages: &mut List<Page>,
) -> Result<(), Memory> {
    let gathered = &labelled.seeded.gathered;
    let name = copied(alloc, b"plan.csv")?;
    let bytes = plan_rows(
        alloc,
        &gathered.texts,
        &gathered.portfolio,
        &conversion.plan,
    )?;
    pages.push(Page { name, bytes })
}

fn add_done(alloc: Global, pages: &mut List<Page>) -> Result<(), Memory> {
    pages.push(page_of(alloc, b"done", b"done\n")?)
}
