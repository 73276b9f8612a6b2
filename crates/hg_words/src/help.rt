//! What is told of each command in the program's help.

ghost use Rattle.std.specs.Prelude.{◌≡◌, map};
ghost use Rattle.hg_words.specs.Help as helps;

/// A command of the table: its name, the words behind it, what it does in a line, and whether it is built.
#[derive(Clone, Copy)]
pub struct HelpRow {
    pub name: &'static str,
    pub words: &'static str,
    pub line: &'static str,
    pub is_built: bool,
}

static ROWS: [HelpRow; 9] = [
    HelpRow {
        name: "status",
        words: "[FLAG ..]",
        line: "list what is tracked and what is not, from any folder of a working copy",
        is_built: true,
    },
    HelpRow {
        name: "add",
        words: "FILE ..",
        line: "track files and links, from the next commit on",
        is_built: true,
    },
    HelpRow {
        name: "forget",
        words: "FILE ..",
        line: "track them no longer; the files stay",
        is_built: true,
    },
    HelpRow {
        name: "remove",
        words: "[-A] FILE ..",
        line: "track them no longer, and take the files away",
        is_built: true,
    },
    HelpRow {
        name: "copy",
        words: "SOURCE TARGET",
        line: "copy a file, and record its source",
        is_built: true,
    },
    HelpRow {
        name: "debugsetparents",
        words: "NODE [NODE]",
        line: "set the parents",
        is_built: true,
    },
    HelpRow {
        name: "debugdirstate",
        words: "",
        line: "print what the dirstate records of each path",
        is_built: true,
    },
    HelpRow {
        name: "debugscript",
        words: "",
        line: "run commands from standard input",
        is_built: true,
    },
    HelpRow {
        name: "debugload",
        words: "N",
        line: "make a working copy of N folders in memory, and count the letters of its status",
        is_built: true,
    },
];

/// The commands of the table, in its order.
pub fn help_rows() -> &'static [HelpRow]
    ensures { map helps.help_of result.now ≡ helps.help_table }
{
    ROWS.as_slice()
}
