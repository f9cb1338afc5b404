// Laws of reading and containment: each function's contract is one of them.
ghost use Rattle.containment.specs.Laws.{SearchExact, WithinReading, AnyNaming, NamingNew, NamingLeast, NamingOnly, NamingSmall, WithinExact, WithinDecided};

pub fn search_is_exact()
    ensures { SearchExact }
{}

pub fn within_is_reading()
    ensures { WithinReading }
{}

pub fn any_naming_shows()
    ensures { AnyNaming }
{}

pub fn naming_is_new()
    ensures { NamingNew }
{}

pub fn naming_is_least()
    ensures { NamingLeast }
{}

pub fn naming_is_the_only_one()
    ensures { NamingOnly }
{}

pub fn naming_is_small()
    ensures { NamingSmall }
{}

pub fn within_is_exact()
    ensures { WithinExact }
{}

pub fn within_is_decided()
    ensures { WithinDecided }
{}
