//! Globs and the texts in them, as the help page means them, and texts that are no globs.
use hg_base::OutOfMemory;
use hg_case_tests::{Play, agree, text, word};
use hg_glob::{Glob, GlobFault, GlobLine, Globs};
use std::alloc::Global;
use std::string::String;
use std::test::Fail;

// Directories of 64 characters, one of them beyond ASCII, as the first word of each case: with them in front of a glob and of a text, that is long.
const DIRECTORIES: &str = "a-directory/with-a-long-name/and-one/more-of-them/before-it-a/ö/ ";

// One glob that holds from the front on, which is asked as many are.
fn alone(alloc: Global, text: &str) -> Result<Globs, GlobFault> {
    let glob = Glob::read(alloc, text)?;
    let mut lines = Vec::new(alloc);
    push(&mut lines, GlobLine { rooted: true, glob })?;
    Ok(Globs::of(alloc, lines)?)
}

fn push(lines: &mut Vec<GlobLine>, line: GlobLine) -> Result<(), OutOfMemory> {
    lines.push(line)?;
    Ok(())
}

// A word behind a front.
fn joined(alloc: Global, front: &str, word: &str) -> Result<String, Fail> {
    let mut whole = String::from_str(alloc, front)?;
    whole.push_str(text(alloc, word)?.as_str())?;
    Ok(whole)
}

// The words whose texts the globs stand in, behind a front.
fn standing(
    alloc: Global,
    globs: &Globs,
    front: &str,
    texts: &str,
    answer: &mut String,
) -> Result<(), Fail> {
    for word in texts.split(' ') {
        if globs.some_stands(joined(alloc, front, word)?.as_str()) {
            answer.push(' ')?;
            answer.push_str(word)?;
        }
    }
    Ok(())
}

// A front, a glob and texts; those that are in the glob as a whole, the front before both.
struct Whole;

impl Play for Whole {
    fn play(alloc: Global, steps: &str, answer: &mut String) -> Result<(), Fail> {
        let (front, rest) = steps.split_once(' ').ok_or("no front")?;
        let (glob, texts) = rest.split_once(' ').ok_or("no texts")?;
        let front = text(alloc, front)?;
        let whole = joined(alloc, front.as_str(), glob)?;
        let globs = alone(alloc, whole.as_str())?;
        standing(alloc, &globs, front.as_str(), texts, answer)
    }
}

// Each case, short and long.
fn agree_anywhere(alloc: Global, table: &str) -> Result<(), Fail> {
    agree::<Whole>(alloc, r"\e ", table)?;
    agree::<Whole>(alloc, DIRECTORIES, table)
}

const CHARACTERS: &str = r"
\e \e a / => \e
a a \e b aa A => a
a/b a/b ab a a/b/ => a/b
ä ä a Ã¤ => ä
€x €x € x€ => €x
😀 😀 😁 \e => 😀
a,b a,b a b => a,b
a} a} a => a}
\\* * a \e \\* => *
\\a a \\a => a
\\\\ \\ \\\\ => \\
a\\ a\\ a => a\\
\\[a] [a] a => [a]
\\{a,b} {a,b} a => {a,b}
\\€ € \\€ => €
\\?x ?x ax => ?x
";

const STARS: &str = r"
* \e a ab.c ä€😀 / a/b a/ => \e a ab.c ä€😀
*.o .o a.o a.b.o a/b.o a.oo o => .o a.o a.b.o
a* a ab ba a/ a/b => a ab
a*b ab a€b abb a/b abc => ab a€b abb
*/* / a/ /b a/b a a/b/c => / a/ /b a/b
*a*a aa bacaa a ab => aa bacaa
**/ \e a/ / a/b/ a a/b => \e a/ / a/b/
**/t t p/t a/b/t /t pt t/u at/ \e => t p/t a/b/t /t
a/**/b a/b a/c/b a/c/d/b a//b ab a/cb a/c/bd => a/b a/c/b a/c/d/b a//b
**/*.o x.o a/x.o a/b/.o x.c x.o/y => x.o a/x.o a/b/.o
x**/y xy x/y xa/y xa/b/y xay => xy x/y xa/y xa/b/y
**/**/a a b/a b/c/a ba => a b/a b/c/a
***/ / a/ a/b/ // \e a /a => / a/ a/b/ //
***/a /a b/a b/c/a a ba => /a b/a b/c/a
****/a a ba b/a b ab => a ba b/a
** \e a a/b / => \e a a/b /
**.c .c a.c a/b.c a.cc c => .c a.c a/b.c
a** a ab a/b ba \e => a ab a/b
a**b ab a/b axxb a/c/b a abc => ab a/b axxb a/c/b
**a** a xax /a/ \e b/ => a xax /a/
a/** a/ a/b a/b/c a b/a/ => a/ a/b a/b/c
*/b*{c,[d-f]}/[α-γ]? /bxe/βy /bxg/βy /bxe/δy => /bxe/βy
";

const ONES: &str = r"
? a / ä € 😀 \e ab => a / ä € 😀
a?c abc a/c a€c ac abbc => abc a/c a€c
?? ab // ä€ a abc ä => ab // ä€
?* a ab /a / \e a/b => a ab /a /
*? a ab a/ \e a/b => a ab a/
";

const CLASSES: &str = r"
[ab] a b c \e ab [ab] => a b
[a-c] a b c d - ` => a b c
[!a] b / € a \e bb => b / €
[!x]y ay xy y => ay
[!a-c]x dx -x /x ax cx x => dx -x /x
[]] ] []] a => ]
[]a] ] a b ]a => ] a
[!]a] b [ ] a => b [
[-a] - a b => - a
[a-] a - b ] => a -
[a-c-e] a b c - e d => a b c - e
[--/] - . / , 0 => - . /
[]-a] ] ^ _ a - b => ] ^ _ a
[\\] \\ ] [\\] => \\
[\\]] \\] ] \\ => \\]
[a/]b /b ab b => /b ab
[α-γ] α β γ δ a => α β γ
[€] € e => €
[😀-😂] 😀 😁 😂 😃 => 😀 😁 😂
[!!] a ! => a
[!-] a ! - => a !
[a!] a ! b => a !
[^a] ^ a b => ^ a
[*?] * ? a \e => * ?
[{,}] { , } a {,} => { , }
[ [ \e a => [
[a [a a => [a
[] [] \e ] => []
[!] [!] ! a => [!]
a[b* a[b a[bc ab => a[b a[bc
";

const BRACES: &str = r"
{a,b} a b \e ab {a,b} => a b
{a} a {a} \e => a
{} \e {} => \e
{,a} \e a , => \e a
{,,a} \e a , => \e a
{a,}b ab b a => ab b
x{a,bc}y xay xbcy xy xaby => xay xbcy
{a,b}{c,d} ac ad bc bd ab cd a => ac ad bc bd
{a,{b,c}d} a bd cd b ad abd => a bd cd
{{a,b},c} a b c ab , => a b c
{a,b}.c a.c b.c c.c ab.c => a.c b.c
{{},a} \e a {} => \e a
{{{a}}} a \e aa => a
*.{c,h} a.c .h a.o a/b.c a. => a.c .h
{*.o,*~} a.o a~ ~ a a/b.o => a.o a~ ~
{a/b,c} a/b c a b => a/b c
{[a,b],c} a , b c [a \e => a , b c
{a\\,b,c} a,b c a b a\\ => a,b c
{**/,x}y y a/y xy ay => y a/y xy
{**,b} \e b x/y => \e b x/y
{b,**}c bc c x/yc b cx => bc c x/yc
{?,ab} a / ab \e abc => a / ab
{€,ä}x €x äx x => €x äx
{a,b}* a bc ca a/ => a bc
{a,b},c a,c b,c a c => a,c b,c
{a,b}} a} b} a => a} b}
";

#[test]
fn means_what_the_help_page_says(rt: HostRuntime) -> Result<(), Fail> {
    for table in [CHARACTERS, STARS, ONES, CLASSES, BRACES] {
        agree_anywhere(rt.alloc(), table)?;
    }
    Ok(())
}

// A word, so often where that is said, and a last one: why the text is no glob.
struct Faults;

impl Play for Faults {
    fn play(alloc: Global, steps: &str, answer: &mut String) -> Result<(), Fail> {
        let mut whole = String::new(alloc);
        for _ in 0..word(steps, 1).parse::<u64>().unwrap_or(1) {
            whole.push_str(text(alloc, word(steps, 0))?.as_str())?;
        }
        whole.push_str(word(steps, 2))?;
        print_fault(alloc, whole.as_str(), answer)
    }
}

fn print_fault(alloc: Global, text: &str, answer: &mut String) -> Result<(), Fail> {
    let fault = Glob::read(alloc, text).err();
    write!(answer, "{fault:?}")?;
    Ok(())
}

const FAULTS: &str = r"
{a => Some(Unbalanced { at: 0 })
a{b => Some(Unbalanced { at: 1 })
ä{ => Some(Unbalanced { at: 2 })
€{ => Some(Unbalanced { at: 3 })
😀{ => Some(Unbalanced { at: 4 })
{a{b} => Some(Unbalanced { at: 0 })
{a}{b => Some(Unbalanced { at: 3 })
{a\\} => Some(Unbalanced { at: 0 })
{[a,b}c] => Some(Unbalanced { at: 0 })
{[b-a] => Some(Unbalanced { at: 0 })
[b-a] => Some(Range { at: 1 })
[!b-a] => Some(Range { at: 2 })
[b-a]{ => Some(Range { at: 1 })
ä[€b-a] => Some(Range { at: 6 })
{[z-a-c]} => Some(Range { at: 2 })
[a-b-a] => None
[b-a => None
[{] => None
\\{ => None
{}} => None
a 4095 => None
a 4096 => Some(TooLong { len: 4096 })
{ 4096 => Some(TooLong { len: 4096 })
€ 1365 => None
€ 1365 a => Some(TooLong { len: 4096 })
{ 4095 => Some(Unbalanced { at: 0 })
";

#[test]
fn refuses_what_is_no_glob(rt: HostRuntime) -> Result<(), Fail> {
    agree::<Faults>(rt.alloc(), "", FAULTS)
}
