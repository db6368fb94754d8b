// A block of scenes, end to end: where each of them stands, and the reader that hands them out.
#![tactic(auto)]

ghost use Rattle.std.specs.Prelude.{◌≡◌};
ghost use Rattle.class_block.specs.Reading.{Handed};
ghost use Rattle.class_block.specs.Block.{headed, size_of, scene_of, start_at};

use scene::Numbered;
use scene::offsets::length_of;

// Whether the header is sound. The judge of the header alone finds it sound exactly where it misses the rest of the scene.
fn is_headed(s: &[u8]) -> bool
    ensures { result ≡ headed s.now }
{
    if s.len() < 6 {
        return false;
    }
    if let Err(r) = judge::judge(&s[0..6]) {
        return r.number() == 3;
    }
    false
}

// How long the scene at the front is.
fn size(s: &[u8]) -> usize
    ensures { result ≡ size_of s.now }
{
    if !is_headed(s) {
        return s.len();
    }
    let n = length_of(s);
    if n <= s.len() {
        return n;
    }
    s.len()
}

// The scene that starts at `at`: no bytes where the block has ended.
fn scene_at(block: &[u8], at: usize) -> &[u8]
    ensures scene { result.now ≡ scene_of (start_at block.now at) }
{
    if at < block.len() {
        let end = at + size(&block[at..]);
        return &block[at..end];
    }
    &block[0..0]
}

// A lent block, and the place of the next scene.
#[derive(Clone, Copy)]
pub struct Reader<'a> {
    block: &'a [u8],
    at: usize,
}

impl<'a> Reader<'a> {
    pub fn new(block: &'a [u8], at: usize) -> Reader<'a>
        ensures { (result.block ≡ block.entry) × (result.at ≡ at) }
    {
        Reader { block, at }
    }

    // Hands out the next scene, which has no bytes where the block has ended, and moves behind it.
    pub fn next<'s>(&'s mut self) -> &'a [u8]
        ensures { Handed self.old result self.new }
    {
        let at = self.at;
        let s = scene_at(self.block, at);
        self.at = at + s.len();
        s
    }
}

// The scene that starts at `at`, as a reader at that place hands it out.
pub fn read_scene(block: &[u8], at: usize) -> &[u8]
    ensures { result.now ≡ scene_of (start_at block.now at) }
{
    let mut r = Reader::new(block, at);
    r.next()
}
