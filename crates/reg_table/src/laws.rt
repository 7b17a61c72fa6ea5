//! Laws of the register table as a whole. Each law is the contract of a function with an empty body.

ghost use Rattle.reg_table.specs.Laws.{AddressHasOnePlace, AddressesAreAligned, RunsAreApart, FirstAddressesReadBack, NameHasOneRow};

/// No address belongs to two places.
pub fn address_has_one_place()
    ensures { AddressHasOnePlace }
{}

/// An address that belongs to a place is a multiple of 4.
pub fn addresses_are_aligned()
    ensures { AddressesAreAligned }
{}

/// No two of the table's runs of addresses overlap, including the runs that are aliases.
pub fn runs_are_apart()
    ensures { RunsAreApart }
{}

/// Each place with an index below its row's count has a first address, and that address belongs to the place.
pub fn first_addresses_read_back()
    ensures { FirstAddressesReadBack }
{}

/// No two rows have the same name.
pub fn name_has_one_row()
    ensures { NameHasOneRow }
{}
