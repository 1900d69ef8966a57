ghost use Rattle.std.specs.Prelude.{◌≡◌, IfOk, IfErr};
ghost use Rattle.std.specs.List.{AllByRecursion};
ghost use Rattle.data_layout.specs.Index.{IsReady};
ghost use Rattle.file_uses.specs.Names.{list_of};
ghost use Rattle.file_uses.specs.Files as files;
ghost use Rattle.program_texts.specs.Programs.{AreMembers, nothing};
ghost use Rattle.gathered.specs.Portfolios as spec;
ghost use Rattle.gathered.specs.Sound.{IsSound};

use crate::fault::GatherFault;
use data_layout::{FileUse, Portfolio};
use file_uses::{FileFault, files_of};
use portfolio::Named;
use program_reader::ReadFault;
use program_texts::{Members, TextWords, read_members, read_texts};
use std::alloc::Global;
use y2k_base::{List, Texts};

/// A portfolio with the texts that it was read from.
pub struct Gathered {
    pub portfolio: Portfolio,
    pub texts: Texts,
}

impl Drop for Gathered {
    fn drop(self) {
        let Gathered {
            portfolio: _portfolio,
            texts: _texts,
        } = self;
    }
}

/// The portfolio of texts, or the first refusal: the lines of all texts in their order, then program by program its
/// expansion, its grammar, its layout, the bytes of all areas so far, its names and its uses, then the external names,
/// then the lengths of records. `files` are the known external names with the names of their files; where there are
/// none, each external name is known and its own file's name.
pub fn assemble(
    alloc: Global,
    texts: Texts,
    files: Option<&[Named]>,
) -> Result<Gathered, GatherFault>
    ensures texts { IfOk result (λ gathered. gathered.texts ≡ texts) }
    ensures portfolio { IfOk result (λ gathered. spec.IsPortfolio texts.list (list_of files.entry) gathered.portfolio) }
    ensures sound { IfOk result (λ gathered. IsSound gathered.portfolio) }
    ensures ready { IfOk result (λ gathered. AllByRecursion IsReady gathered.portfolio.layouts) }
    ensures fault { IfErr result (spec.IsRefused texts.list (list_of files.entry)) }
{
    match read_texts(alloc, texts.list.items()) {
        Ok(words) => match portfolio_of(alloc, &words, files) {
            Ok(portfolio) => Ok(Gathered { portfolio, texts }),
            Err(fault) => Err(fault),
        },
        Err(ReadFault::Refused(refused)) => Err(GatherFault::Refused(refused)),
        Err(ReadFault::Memory) => Err(GatherFault::Memory),
    }
}

/// The portfolio of the words of texts.
pub(crate) fn portfolio_of(
    alloc: Global,
    words: &TextWords,
    files: Option<&[Named]>,
) -> Result<Portfolio, GatherFault>
    ensures portfolio { IfOk result (spec.IsPortfolioOf words.now (list_of files.entry)) }
    ensures sound { IfOk result IsSound }
    ensures ready { IfOk result (λ portfolio. AllByRecursion IsReady portfolio.layouts) }
    ensures fault { IfErr result (spec.IsRefusedOf words.now (list_of files.entry)) }
{
    match read_members(alloc, &words.books, words.sources.items()) {
        Ok(members) => match used_files(alloc, &members, files) {
            Ok(used) => Ok(portfolio_with(members, used)),
            Err(fault) => Err(fault),
        },
        Err(ReadFault::Refused(refused)) => Err(GatherFault::Refused(refused)),
        Err(ReadFault::Memory) => Err(GatherFault::Memory),
    }
}

fn portfolio_with(members: Members, files: List<FileUse>) -> Portfolio
    ensures { result ≡ record { programs = members.programs; layouts = members.layouts; files = files } }
{
    let (programs, layouts) = members.into_parts();
    Portfolio {
        programs,
        layouts,
        files,
    }
}

fn used_files(
    alloc: Global,
    members: &Members,
    files: Option<&[Named]>,
) -> Result<List<FileUse>, GatherFault>
    ensures files { IfOk result (spec.AreFiles (list_of files.entry) members.now.programs members.now.layouts) }
    ensures fault { IfErr result (spec.IsFileRefusal (list_of files.entry) members.now.programs members.now.layouts) }
{
    match files_of(
        alloc,
        members.programs.items(),
        members.layouts.items(),
        files,
    ) {
        Ok(used) => Ok(used),
        Err(FileFault::Unknown(name)) => Err(GatherFault::FileUnknown(name)),
        Err(FileFault::Lengths(name)) => Err(GatherFault::RecordLengths(name)),
        Err(FileFault::Memory) => Err(GatherFault::Memory),
    }
}
