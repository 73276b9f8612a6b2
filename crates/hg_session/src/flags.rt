//! What the flags of a status ask for (help topic `status`).

ghost use Rattle.std.specs.Prelude.{◌≡◌};
ghost use Rattle.hg_session.specs.Flags.{groups_of, style_of, wanted_of, wants_any};

use hg_listing::Wanted;
use hg_report::Style;
use hg_words::StatusFlags;

// Every letter.
const ALL: Wanted = Wanted {
    m: true,
    a: true,
    r: true,
    d: true,
    u: true,
    i: true,
    c: true,
};

// The letters that are listed where no group is named.
const DEFAULT: Wanted = Wanted {
    i: false,
    c: false,
    ..ALL
};

// The groups that are named.
fn groups(flags: StatusFlags) -> Wanted
    ensures { result ≡ groups_of flags }
{
    Wanted {
        m: flags.modified,
        a: flags.added,
        r: flags.removed,
        d: flags.deleted,
        u: flags.unknown,
        i: flags.ignored,
        c: flags.clean,
    }
}

fn names_any(groups: Wanted) -> bool
    ensures { result ≡ wants_any groups }
{
    groups.m || groups.a || groups.r || groups.d || groups.u || groups.i || groups.c
}

/// The letters that a status asks for.
pub(crate) fn wanted(flags: StatusFlags) -> Wanted
    ensures { result ≡ wanted_of flags }
{
    if flags.all {
        return ALL;
    }
    let groups = groups(flags);
    if names_any(groups) {
        return groups;
    }
    DEFAULT
}

/// How the rows of a status are printed: `-A` shows all that there is.
pub(crate) fn style(flags: StatusFlags) -> Style
    ensures { result ≡ style_of flags }
{
    Style {
        plain: flags.no_status,
        nul: flags.print0,
        copies: flags.copies || flags.all,
    }
}
