//! A count of links that a run can print.

use link_rows::LinkCount;

/// How many links were read. Contracts see no count of it: `Steps` of link_rows has that.
#[derive(Drop)]
pub struct Tally {
    pub links: u64,
}

impl LinkCount for Tally {
    ghost use Rattle.link_rows.specs.Counts.{none_is_cheap};

    ghost count = { λ _. 0 };

    ghost price = { 0 };

    fn tick(&mut self) {
        self.links = self.links.saturating_add(1);
    }

    ghost cheap = { none_is_cheap };
}
