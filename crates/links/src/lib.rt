// Places linked by the label that each bears: a list for each label, read from its last place to its first.
#![tactic(auto)]

ghost use Rattle.std.specs.Prelude.{◌≡◌, ℕ, ◌<◌, length, Some, None, slice_index_or, slice_set};
ghost use Rattle.links.specs.Links.{Falling};

// The lists of all labels: the head of each label's list, and of each place the next in its list. They lie in fixed
// arrays of the caller's, since no call may allocate.
#[derive(Clone, Copy)]
pub struct Links<'a> {
    pub heads: &'a [Option<u16>],
    pub nexts: &'a [Option<u16>],
    pub ghost falling: { (label : ℕ) → label < length heads.now → Falling nexts.now (slice_index_or heads.now label None) },
}

impl<'a> Links<'a> {
    // The places that bear the label, from the last to the first.
    pub fn places(&self, label: usize) -> Places<'a>
        requires { label < length self.now.heads.now }
        ensures held { result.held ≡ slice_index_or self.now.heads.now label None }
        ensures nexts { result.nexts.now ≡ self.now.nexts.now }
    {
        Places {
            held: self.heads[label],
            nexts: self.nexts,
        }
    }
}

// The places of one list, from the one that is held on.
#[derive(Drop)]
pub struct Places<'a> {
    pub held: Option<u16>,
    pub nexts: &'a [Option<u16>],
    pub ghost falling: { Falling nexts.now held },
}

impl<'a> Iterator for Places<'a> {
    ghost use Rattle.links.specs.Steps.{Steps, places_left};

    type Item = u16;

    ghost next_gives = { Steps };

    ghost remaining = { places_left };

    fn next(&mut self) -> Option<u16> {
        let place = self.held?;
        self.held = self.nexts[place as usize];
        Some(place)
    }
}

// Links the next place, which bears the label: it is the last one now, after the one that was.
pub fn link(heads: &mut [Option<u16>], nexts: &mut [Option<u16>], label: usize, place: u16)
    requires label { label < length heads.old }
    requires place { place < length nexts.old }
    ensures heads { heads.new ≡ slice_set heads.old label (Some place) }
    ensures nexts { nexts.new ≡ slice_set nexts.old place (slice_index_or heads.old label None) }
{
    nexts[place as usize] = heads[label];
    heads[label] = Some(place);
}
