ghost use Rattle.std.specs.Prelude.{◌≡◌, IfOk};

use crate::index::Index;
use cobol_syntax::{Range, Usage};
use decimal_bytes::NumForm;
use std::alloc::Global;
use y2k_base::{AreaId, Bytes, List, Memory, Picture, Span, Twin};

/// What kind of item an item is: a group has no PICTURE, and an elementary item is of the class of its PICTURE.
#[derive(Clone, Copy, Debug, PartialEq, Eq)]
pub enum Class {
    Group,
    Text,
    Edited,
    Number,
}

/// A data item. Items are numbered from 0, in the order of their entries, those of the file section first.
pub struct Item {
    /// `None` where it is FILLER or has no name.
    pub name: Option<Bytes>,
    pub level: u8,
    /// The number of the group that it is a part of.
    pub parent: Option<u32>,
    /// Its first occurrence.
    pub span: Span,
    pub class: Class,
    pub usage: Usage,
    /// The digits, the sign and the point of its picture; a group and a text have no digits.
    pub form: NumForm,
    pub picture: Option<Picture>,
    /// Each OCCURS round it, its own included, outermost first.
    pub steps: List<Step>,
    /// The position of its entry in the words of the program.
    pub entry_at: u32,
}

/// An OCCURS: how many bytes one occurrence has, and how many occurrences there are.
#[derive(Clone, Copy, Debug, PartialEq, Eq)]
pub struct Step {
    pub size: u32,
    pub count: u32,
}

/// A condition-name, with the number of its item and the values for which it holds.
pub struct CondItem {
    pub name: Bytes,
    pub item: u32,
    pub ranges: List<Range>,
    pub entry_at: u32,
}

/// A storage area: the record area of a file, or an item of working storage that lies in no other.
pub struct Area {
    pub id: AreaId,
    /// The name of the file in the program, or of the item.
    pub name: Option<Bytes>,
    pub file: bool,
    /// How many bytes it has.
    pub length: u32,
}

/// The items, condition-names and areas of a program, with an index of the names.
pub struct Layout {
    pub items: List<Item>,
    pub conds: List<CondItem>,
    pub areas: List<Area>,
    pub(crate) index: Index,
}

impl Drop for Item {
    fn drop(self) {
        let Item {
            name: _name,
            level: _,
            parent: _,
            span: _,
            class: _,
            usage: _,
            form: _,
            picture: _picture,
            steps: _steps,
            entry_at: _,
        } = self;
    }
}

impl Drop for CondItem {
    fn drop(self) {
        let CondItem {
            name: _name,
            item: _,
            ranges: _ranges,
            entry_at: _,
        } = self;
    }
}

impl Drop for Area {
    fn drop(self) {
        let Area {
            id: _,
            name: _name,
            file: _,
            length: _,
        } = self;
    }
}

impl Drop for Layout {
    fn drop(self) {
        let Layout {
            items: _items,
            conds: _conds,
            areas: _areas,
            index: _index,
        } = self;
    }
}

impl Twin for Class {
    fn twin(&self, _: Global) -> Result<Class, Memory> {
        Ok(*self)
    }
}

impl Twin for Step {
    fn twin(&self, _: Global) -> Result<Step, Memory> {
        Ok(*self)
    }
}

impl Twin for Item {
    fn twin(&self, alloc: Global) -> Result<Item, Memory> {
        Ok(Item {
            name: self.name.twin(alloc)?,
            level: self.level,
            parent: self.parent,
            span: self.span,
            class: self.class,
            usage: self.usage,
            form: self.form,
            picture: self.picture.twin(alloc)?,
            steps: self.steps.twin(alloc)?,
            entry_at: self.entry_at,
        })
    }
}

impl Twin for CondItem {
    fn twin(&self, alloc: Global) -> Result<CondItem, Memory> {
        Ok(CondItem {
            name: self.name.twin(alloc)?,
            item: self.item,
            ranges: self.ranges.twin(alloc)?,
            entry_at: self.entry_at,
        })
    }
}

impl Twin for Area {
    fn twin(&self, alloc: Global) -> Result<Area, Memory> {
        Ok(Area {
            id: self.id,
            name: self.name.twin(alloc)?,
            file: self.file,
            length: self.length,
        })
    }
}
