// Each call of the files and each put that fails, in each command.
use kit_base::{FilesInMemory, Name, Seq, SinkInMemory};
use kit_core::kit;
use std::alloc::Global;
use std::process::Abort;
use std::test::Fail;

/// What a command answered, left and put.
#[derive(Drop)]
struct Ran {
    status: u8,
    files: FilesInMemory,
    out: SinkInMemory,
}

// The first program with its cartridge; `faulty` has a last word that is no instruction, and a line table.
const FRONT: &[u8] = b"KIT-CART\x01\0\0\0\x98\0\0\0\x03\0\0\0\0\0\0\0\0\0\0\0hello";

const PROGRAM: &[u8] = b"V32-VBIN\x03\0\0\0\x02\x02\0\x62\xff\0\0\0\0\0\0\0";

// Waits for ever.
const WAITS: &[u8] = b"V32-VBIN\x03\0\0\0\0\0\0\x04\0\0\0\x0A\0\0\0\x20";

// Asks for two controls of a gamepad, shows their difference as a colour, and halts.
const FRONT_OF_FIVE: &[u8] = b"KIT-CART\x01\0\0\0\xA0\0\0\0\x05\0\0\0\0\0\0\0\0\0\0\0hello";

const ASKS: &[u8] =
    b"V32-VBIN\x05\0\0\0\x02\x04\0\x5C\x03\x04\x20\x5C\0\0\x02\x9C\x02\x02\0\x60\0\0\0\0";

// The moving square.
const SQUARE: &[u8] = b"#include \"video.h\"\n#include \"input.h\"\n#include \"time.h\"
void main() {
    int x = 304;
    select_texture(0);
    select_region(0);
    define_region(0, 0, 31, 31, 0, 0);
    while (true) {
        clear_screen(color_black);
        if (gamepad_left() > 0) x -= 2;
        if (gamepad_right() > 0) x += 2;
        draw_region_at(x, 164);
        end_frame();
    }
}
";

const FRONT_WITH_LINES: &[u8] = b"KIT-CART\x02\0\0\0\xC8\0\0\0\x03\0\0\0\0\0\0\0\0\0\0\0hello";

const FAULTY: &[u8] =
    b"V32-VBIN\x03\0\0\0\x02\x02\0\x62\xff\0\0\0\x01\0\0\0KIT-LINE\x01\0\0\0\x01\0\0\0\x03\0\0\0a.c\0\x01\0\0\x20\0\0\0\0\x07\0\0\0\x05\0\0\0first\0\0\0";

const EMPTY_WORDS: &[u8] = b"V32-VBIN\x01\0\0\0\0\0\0\0";

/// A file for each kind that a command reads.
fn some_files(alloc: Global) -> Result<Vec<(Name, Seq<u8>)>, Fail> {
    let mut held = Vec::new(alloc);
    // A name, and its bytes: those in front, so many zeros, and those behind.
    let rows: [(&str, &[u8], usize, &[u8]); 20] = [
        ("p", b"title hello\nsource s\n", 0, b""),
        (
            "s",
            b"void main() { port_out(GPU_ClearColor, 255); }",
            0,
            b"",
        ),
        ("q", b"title nested\nsource c\n", 0, b""),
        ("c", b"#include \"h\"\nvoid main() { }", 0, b""),
        ("h", b"int x;", 0, b""),
        ("pads", b"pads 0 0 0\n", 0, b""),
        ("answers", b"5\n7\n", 0, b""),
        ("text", b"a: OUT 0x202, 7\nJMP a\n", 0, b""),
        ("words", EMPTY_WORDS, 0, b""),
        ("cart", FRONT, 95, PROGRAM),
        ("faulty", FRONT_WITH_LINES, 95, FAULTY),
        ("card", b"", 1_048_576, b""),
        ("v", b"title strays\nsource x\n", 0, b""),
        (
            "x",
            b"void main() { int y; port_out(GPU_ClearColor, y); }",
            0,
            b"",
        ),
        ("w", b"title w\nsource m\ntexture t\nsound d\n", 0, b""),
        ("m", SQUARE, 0, b""),
        ("t", b"V32-VTEX\x20\0\0\0\x20\0\0\0", 4096, b""),
        ("d", b"V32-VSND\x01\0\0\0", 4, b""),
        ("waits", FRONT, 95, WAITS),
        ("asks", FRONT_OF_FIVE, 95, ASKS),
    ];
    for (name, front, zeros, behind) in rows {
        let mut bytes = Vec::from_slice(alloc, front)?;
        bytes.extend_from_slice(&Vec::from_elem(alloc, 0u8, zeros)?)?;
        bytes.extend_from_slice(behind)?;
        held.push((Name::new(alloc, name)?, Seq::from_vec(bytes)))?;
    }
    Ok(held)
}

/// The command of these words, parted by spaces, over those files. The calls of these numbers fail.
fn run(
    rt: &impl Abort,
    alloc: Global,
    words: &str,
    failing_files: Vec<u32>,
    failing_puts: Vec<u32>,
) -> Result<Ran, Fail> {
    let mut owned = Vec::new(alloc);
    for word in words.split(' ') {
        owned.push(String::from_str(alloc, word)?)?;
    }
    let held = some_files(alloc)?;
    assert!(rt; FilesInMemory::are_distinct(&held));
    let mut files = FilesInMemory::new(alloc, held, failing_files);
    let mut out = SinkInMemory::new(alloc, failing_puts);
    let status = kit(alloc, &owned, &mut files, &mut out);
    Ok(Ran { status, files, out })
}

/// The bytes of the file of that name, or none.
fn file_of<'a>(files: &'a FilesInMemory, name: &str) -> Option<&'a [u8]> {
    for file in files.held() {
        if file.0.bytes() == name.as_bytes() {
            return Some(file.1.as_slice());
        }
    }
    None
}

/// Whether a file is not there, or is a front of what it is in the other files.
fn is_front(files: &FilesInMemory, whole: &FilesInMemory, name: &str) -> bool {
    match (file_of(files, name), file_of(whole, name)) {
        (None, _) => true,
        (Some(front), Some(bytes)) => bytes.starts_with(front),
        (Some(_), None) => false,
    }
}

#[test]
fn each_failing_call_of_the_files_leaves_fronts(rt: HostRuntime) -> Result<(), Fail> {
    let alloc = rt.alloc();
    // The words, and the names that the command's calls of the files are given, in their order.
    let rows = [
        ("build p a b", "p s a a b b"),
        ("check p", "p s"),
        ("check q", "q c h"),
        ("migrate cart a", "cart a a"),
        ("asm text a", "text a a"),
        ("dis words a", "words a a"),
        ("trace cart answers card 5", "cart answers card"),
        (
            "run cart pads a b 2 card",
            "cart pads card a a b b a b card card",
        ),
        (
            "play p a b pads e f 2 card",
            "p s pads card a a b b e e f f e f card card",
        ),
        (
            "run waits pads a b 3 card",
            "waits pads card a a b b a b a b a b card card",
        ),
        (
            "play w a b pads e f 3 card",
            "w m t d pads card a a b b e e f f e f e f e f card card",
        ),
        ("watch p a b pads 2 card", "p s pads card a a b b"),
        ("bounds p a b e", "p s a a b b e e"),
        ("gen 4 e a b", "e e gen.c gen.c gen.c a a b b"),
    ];
    for (words, calls) in rows {
        let clean = run(&rt, alloc, words, Vec::new(alloc), Vec::new(alloc))?;
        assert_eq!(rt; clean.status, 0, "{words}");
        let mut call = 0u32;
        for name in calls.split(' ') {
            let failing = vec![in alloc; call]?;
            let ran = run(&rt, alloc, words, failing, Vec::new(alloc))?;
            let wanted = format!(in alloc; "file fault {name}\n")?;
            assert_eq!(rt; ran.status, 5, "{words}, call {call}");
            assert_eq!(rt;
                ran.out.written(),
                wanted.as_bytes(),
                "{words}, call {call}"
            );
            for output in ["a", "b", "e", "f", "card", "gen.c"] {
                assert!(rt;
                    is_front(&ran.files, &clean.files, output),
                    "{words}, call {call}"
                );
            }
            call = call.wrapping_add(1);
        }
        let ran = run(&rt, alloc, words, vec![in alloc; call]?, Vec::new(alloc))?;
        assert_eq!(rt; ran.status, 0, "{words}: it makes no further call");
    }
    Ok(())
}

#[test]
fn each_refused_put_leaves_a_front(rt: HostRuntime) -> Result<(), Fail> {
    let alloc = rt.alloc();
    // The words, what is put in all, in how many puts, and the status then.
    let rows = [
        (
            "trace cart answers none 9",
            "out 0x202 0x000000FF\nhalted\n",
            2u32,
            0u8,
        ),
        (
            "trace asks answers none 9",
            "in 0x402 0x00000005\nin 0x403 0x00000007\nout 0x202 0xFFFFFFFE\nhalted\n",
            4,
            0,
        ),
        ("check p", "ok\n", 1, 0),
        ("watch p a b pads 2 none", "met\n", 1, 0),
        ("bounds p a b e", "bound main 2\n", 1, 0),
        ("watch v a b pads 2 none", "stray at x:1\n", 3, 0),
        (
            "gen 1 e a b",
            "functions 1 tokens 29 out 0x00000008\n",
            2,
            0,
        ),
        (
            "run faulty pads a b 2 none",
            "undecodable at 0x20000002 in first at a.c:7\n",
            7,
            3,
        ),
    ];
    for (words, text, puts, status) in rows {
        for put in 0..puts + 1 {
            let failing = vec![in alloc; put]?;
            let ran = run(&rt, alloc, words, Vec::new(alloc), failing)?;
            let due = if put < puts { 9 } else { status };
            assert_eq!(rt; ran.status, due, "{words}, put {put}");
            assert!(rt; text.as_bytes().starts_with(ran.out.written()));
            assert!(rt; put < puts || ran.out.written().len() == text.len());
        }
    }
    Ok(())
}
