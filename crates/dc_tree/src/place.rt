// Where something stands.
use dc_syntax::{NameId, Names, Want, next_number};
use indexmap::{IndexMap, IndexSet};
use std::alloc::Global;
use std::cmp::Ordering;

/// The number of a place.
#[derive(Clone, Copy, PartialEq, Eq, PartialOrd, Ord, Hash)]
pub struct PlaceId(pub u32);

impl PlaceId {
    /// The whole program.
    pub const NOWHERE: PlaceId = PlaceId(0);
}

/// The number of a spot.
#[derive(Clone, Copy, PartialEq, Eq, PartialOrd, Ord, Hash)]
pub struct SpotId(pub u32);

/// An offset in a text that stands at a spot.
#[derive(Clone, Copy, PartialEq, Eq, Hash)]
pub struct Where {
    pub spot: SpotId,
    pub at: u32,
}

/// The last step of a place.
#[derive(Clone, Copy, PartialEq, Eq, Hash)]
pub enum PlaceStep {
    /// The module of that name; the place before it is itself.
    Module(NameId),
    /// At an offset in the file, or in the text of the mixin at the place before it.
    At(u32),
    /// In a round of the `static foreach` around it.
    Round(u32),
    /// In the instance with this key text.
    With(NameId),
}

/// A place: the place before its last step, and that step.
#[derive(Clone, Copy, PartialEq, Eq, Hash)]
struct Link {
    before: PlaceId,
    step: PlaceStep,
}

/// What the offsets of a text are offsets of: a file or a mixin's text, read in some round or
/// instance.
#[derive(Clone, Copy, PartialEq, Eq, Hash)]
pub struct Spot {
    /// The module of the file, or the whole place of the `mixin` word.
    pub text: PlaceId,
    /// The innermost round or instance that is open in this text, with those around it.
    pub inside: Option<PlaceId>,
    /// Where in this text that stands of which this is a round or an instance. Rounds of the same
    /// number of two `static foreach` are two spots, since other names are known in them.
    pub of: u32,
    /// How many mixins the text stands in.
    pub depth: u32,
}

/// All places and spots that were named.
///
/// The rounds and instances that are open at a spot are kept as a chain of the same links as
/// places.
#[derive(Drop)]
pub struct Places {
    alloc: Global,
    links: IndexSet<Link>,
    spots: IndexSet<Spot>,
    known: IndexMap<Where, PlaceId>,
}

/// The place that stands for no place: that of the whole program.
const NOWHERE: Link = Link {
    before: PlaceId(0),
    step: PlaceStep::Module(NameId(0)),
};

impl Places {
    pub fn new(alloc: Global) -> Places {
        Places {
            alloc,
            links: IndexSet::new(alloc),
            spots: IndexSet::new(alloc),
            known: IndexMap::new(alloc),
        }
    }

    fn link(&self, place: PlaceId) -> Link {
        match self.links.get_index(place.0 as usize) {
            Some(link) => *link,
            None => NOWHERE,
        }
    }

    /// The place before the last step; of a module itself.
    pub fn before(&self, place: PlaceId) -> PlaceId {
        self.link(place).before
    }

    pub fn step(&self, place: PlaceId) -> PlaceStep {
        self.link(place).step
    }

    fn linked(&mut self, link: Link) -> Result<PlaceId, Want> {
        let (index, _) = self.links.insert_full(link)?;
        Ok(PlaceId(next_number(index)?))
    }

    /// The place of a module.
    pub fn module(&mut self, name: NameId) -> Result<PlaceId, Want> {
        self.linked(Link {
            before: PlaceId(0),
            step: PlaceStep::Module(name),
        })
    }

    /// A place with one more step.
    pub fn inside(&mut self, before: PlaceId, step: PlaceStep) -> Result<PlaceId, Want> {
        self.linked(Link { before, step })
    }

    pub fn spot(&self, spot: SpotId) -> Spot {
        match self.spots.get_index(spot.0 as usize) {
            Some(spot) => *spot,
            None => Spot {
                text: PlaceId(0),
                inside: None,
                of: 0,
                depth: 0,
            },
        }
    }

    fn spotted(&mut self, spot: Spot) -> Result<SpotId, Want> {
        let (index, _) = self.spots.insert_full(spot)?;
        Ok(SpotId(next_number(index)?))
    }

    /// The spot of a file.
    pub fn file(&mut self, module: PlaceId) -> Result<SpotId, Want> {
        self.spotted(Spot {
            text: module,
            inside: None,
            of: 0,
            depth: 0,
        })
    }

    /// The spot of the text of the mixin that stands at that place.
    pub fn mixed(&mut self, at: Where) -> Result<SpotId, Want> {
        let depth = self.spot(at.spot).depth.saturating_add(1);
        let text = self.place(at)?;
        self.spotted(Spot {
            text,
            inside: None,
            of: 0,
            depth,
        })
    }

    /// The spot inside a round or an instance of what stands at an offset.
    pub fn entered(&mut self, spot: SpotId, step: PlaceStep, of: u32) -> Result<SpotId, Want> {
        let outer = self.spot(spot);
        let before = match outer.inside {
            Some(inside) => inside,
            None => PlaceId(0),
        };
        let inside = self.linked(Link { before, step })?;
        self.spotted(Spot {
            inside: Some(inside),
            of,
            ..outer
        })
    }

    /// The steps of the rounds and instances that are open at a spot, from inner to outer.
    fn open_steps(&self, spot: Spot) -> Result<Vec<PlaceStep>, Want> {
        let mut steps = Vec::new(self.alloc);
        let mut at = spot.inside;
        for _ in 0..u64::MAX {
            let Some(place) = at else {
                break;
            };
            let link = self.link(place);
            steps.push(link.step)?;
            at = if link.before == PlaceId(0) {
                None
            } else {
                Some(link.before)
            };
        }
        Ok(steps)
    }

    /// The place of an offset: the offset, and behind it the rounds and instances that are open
    /// there.
    pub fn place(&mut self, at: Where) -> Result<PlaceId, Want> {
        if let Some(known) = self.known.get(&at) {
            return Ok(*known);
        }
        let spot = self.spot(at.spot);
        let mut place = self.inside(spot.text, PlaceStep::At(at.at))?;
        let mut steps = self.open_steps(spot)?;
        for _ in 0..u64::MAX {
            let Some(step) = steps.pop() else {
                break;
            };
            place = self.inside(place, step)?;
        }
        self.known.insert(at, place)?;
        Ok(place)
    }

    /// The steps of a place from the module on.
    pub fn steps(&self, place: PlaceId) -> Result<Vec<PlaceStep>, Want> {
        let mut steps = Vec::new(self.alloc);
        let mut at = place;
        for _ in 0..u64::MAX {
            let link = self.link(at);
            steps.push(link.step)?;
            if let PlaceStep::Module(_) = link.step {
                break;
            }
            at = link.before;
        }
        steps.reverse();
        Ok(steps)
    }

    /// The order of places: by the module's name, then step by step, a place before those inside
    /// it.
    pub fn compare(&self, names: &Names, a: PlaceId, b: PlaceId) -> Result<Ordering, Want> {
        if a == b {
            return Ok(Ordering::Equal);
        }
        let left = self.steps(a)?;
        let right = self.steps(b)?;
        Ok(compare_steps(names, left.as_slice(), right.as_slice()))
    }
}

fn compare_steps(names: &Names, left: &[PlaceStep], right: &[PlaceStep]) -> Ordering {
    for k in 0..left.len() {
        match (left.get(k), right.get(k)) {
            (Some(a), Some(b)) => {
                let order = compare_step(names, *a, *b);
                if order != Ordering::Equal {
                    return order;
                }
            }
            _ => return Ordering::Greater,
        }
    }
    if left.len() == right.len() {
        Ordering::Equal
    } else {
        Ordering::Less
    }
}

fn rank(step: PlaceStep) -> u8 {
    match step {
        PlaceStep::Module(_) => 0,
        PlaceStep::At(_) => 1,
        PlaceStep::Round(_) => 2,
        PlaceStep::With(_) => 3,
    }
}

/// Offsets come before rounds and rounds before instances, each sort by what it holds.
fn compare_step(names: &Names, a: PlaceStep, b: PlaceStep) -> Ordering {
    match (a, b) {
        (PlaceStep::At(x), PlaceStep::At(y)) => x.cmp(&y),
        (PlaceStep::Round(x), PlaceStep::Round(y)) => x.cmp(&y),
        (PlaceStep::Module(x), PlaceStep::Module(y)) => names.bytes(x).cmp(names.bytes(y)),
        (PlaceStep::With(x), PlaceStep::With(y)) => names.bytes(x).cmp(names.bytes(y)),
        _ => rank(a).cmp(&rank(b)),
    }
}
