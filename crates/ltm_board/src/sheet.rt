//! The sheet of a loading.
ghost use Rattle.std.specs.Prelude.{◌≡◌, ◌<◌, ℕ, length, IfOk};
ghost use Rattle.ltm_flows.specs.Counts.{Counts};
ghost use Rattle.ltm_flows.specs.Setting.{Setting};
ghost use Rattle.ltm_flows.specs.Shown.{ShowsCounts, links_of};
ghost use Rattle.ltm_board.specs.Making.{AreThrough};

use crate::through::Through;
use ltm_flows::{Loading, Totals};
use ltm_units::{LinkId, NoMemory, Units};
use std::alloc::Global;
use std::marker::Model;

/// The totals of a loading, and for each link what has entered it and what has left it by the last boundary.
pub struct Sheet {
    totals: Totals,
    through: Vec<Through>,
}

// By hand, so that letting go of a sheet is one call.
impl Drop for Sheet {
    fn drop(self) {
        let Sheet {
            totals: _totals,
            through: _through,
        } = self;
    }
}

impl Model for Sheet {
    ghost use Rattle.ltm_board.specs.Sheets.{SheetData};

    ghost Value = { SheetData };

    ghost view = { λ s. record { totals = s.totals; through = s.through.items } };
}

/// For each link of a loading what has entered it and what has left it.
fn through_links(alloc: Global, loading: &Loading) -> Result<Vec<Through>, NoMemory>
    ensures { IfOk result (λ v. AreThrough loading.now (links_of loading.now) v.items) }
{
    let links = loading.links();
    let mut through = Vec::with_capacity(alloc, links as usize)?;
    for link in 0..links {
        let entered = loading.entered(LinkId(link));
        let left = loading.left(LinkId(link));
        through.push(Through { entered, left })?;
    }
    Ok(through)
}

impl Sheet {
    ghost use Rattle.ltm_board.specs.Sheets.{links_on, entered_on, left_on, IsSheet};

    /// A sheet of so many links, on which all is 0.
    pub fn create(alloc: Global, links: u32) -> Result<Sheet, NoMemory>
        ensures { IfOk result (λ sheet. links_on sheet ≡ links) }
    {
        let none = Units(0);
        let through = Vec::from_elem(
            alloc,
            Through {
                entered: none,
                left: none,
            },
            links as usize,
        )?;
        Ok(Sheet {
            totals: Totals {
                generated: none,
                arrived: none,
                on_links: none,
                waiting: none,
            },
            through,
        })
    }

    /// The sheet of a loading.
    pub fn of(alloc: Global, loading: &Loading) -> Result<Sheet, NoMemory>
        ensures { IfOk result (λ sheet. (s : Setting) (version : ℕ) (c : Counts)
            → ShowsCounts s version c loading.now → IsSheet s c sheet) }
    {
        let through = through_links(alloc, loading)?;
        Ok(Sheet {
            totals: loading.totals(),
            through,
        })
    }

    /// How many links there are.
    pub fn links(&self) -> usize
        ensures { result ≡ links_on self.now }
    {
        self.through.len()
    }

    /// What the loading comes to in all.
    pub fn totals(&self) -> Totals
        ensures { result ≡ self.now.totals }
    {
        self.totals
    }

    /// What has entered a link.
    pub fn entered(&self, link: LinkId) -> Units
        requires { link.0 < links_on self.now }
        ensures { result.0 ≡ entered_on self.now link.0 }
    {
        self.through[link.0 as usize].entered
    }

    /// What has left a link.
    pub fn left(&self, link: LinkId) -> Units
        requires { link.0 < links_on self.now }
        ensures { result.0 ≡ left_on self.now link.0 }
    {
        self.through[link.0 as usize].left
    }

    /// Becomes another sheet of as many links. Takes no memory.
    pub fn copy_from(&mut self, other: &Sheet)
        requires { links_on self.old ≡ links_on other.now }
        ensures { self.new ≡ other.now }
    {
        self.totals = other.totals;
        self.through.copy_from_slice(&other.through);
    }

    /// Where its memory comes from.
    pub(crate) fn allocator(&self) -> Global {
        *self.through.allocator()
    }

    /// An equal sheet, on the same allocator.
    pub fn try_copy(&self) -> Result<Sheet, NoMemory>
        ensures { IfOk result (λ copy. copy ≡ self.now) }
    {
        let through = Vec::from_slice(self.allocator(), &self.through)?;
        Ok(Sheet {
            totals: self.totals,
            through,
        })
    }
}
