//! The items of a stream of streams.
ghost use Rattle.std.specs.Prelude.{◌+◌, ◌*◌, ◌≤◌, All, List, length};
ghost use Rattle.std.specs.List.{AllZip};
ghost use Rattle.std.specs.Option.{option_to_list};
ghost use Rattle.geo_stream.specs.Flattened.{StandsForFlattened, InHandStandsFor, end_to_end, size_in_hand};
ghost use Rattle.geo_stream.specs.Laws.Flattened.{Flattened-one_list, Flattened-no_longer, Flattened-bounded};
ghost use Rattle.geo_stream.specs.Stream.{HasList, TakesFirst};

use crate::Stream;

/// The items of the streams that a stream gives, one stream after the other.
#[derive(Drop)]
pub struct Flattened<S: Stream> {
    source: S,
    in_hand: Option<S::Item>,
}

impl<S: Stream> Flattened<S>
where
    S::Item: Stream + Drop,
{
    /// A stream of the items of the first stream that `source` gives, then those of the second, and so on.
    pub fn new(source: S) -> Flattened<S>
        ensures some_list { (streams : List S.Item) → S.stands_for source streams → All (HasList S.Item.stands_for) streams → HasList ⟦<Flattened<S> as Stream>⟧.stands_for result }
        ensures list { (streams : List S.Item) (lists : List (List S.Item.Item)) → S.stands_for source streams → AllZip S.Item.stands_for streams lists → ⟦<Flattened<S> as Stream>⟧.stands_for result (end_to_end lists) }
    {
        Flattened {
            source,
            in_hand: None,
        }
    }
}

/// The first item of the current stream, if there is one.
fn next_in_hand<J: Stream>(in_hand: &mut Option<J>) -> Option<J::Item>
    requires { (items : List J.Item) × InHandStandsFor J.stands_for in_hand.old items }
    ensures first { (items : List J.Item) → InHandStandsFor J.stands_for in_hand.old items → TakesFirst (InHandStandsFor J.stands_for) items result in_hand.new }
    ensures size { size_in_hand J.size in_hand.new + length (option_to_list result) ≤ size_in_hand J.size in_hand.old }
{
    match in_hand {
        Some(stream) => stream.next(),
        None => None,
    }
}

impl<S: Stream> Stream for Flattened<S>
where
    S::Item: Stream + Drop,
{
    type Item = <S::Item as Stream>::Item;

    ghost stands_for = { λ stream. StandsForFlattened S.stands_for S.Item.stands_for stream.source stream.in_hand };

    ghost size = { λ stream. size_in_hand S.Item.size stream.in_hand + S.Item.most * S.size stream.source };

    ghost most = { S.Item.most + S.Item.most * S.most };

    fn next(&mut self) -> Option<<S::Item as Stream>::Item> {
        loop {
            if let Some(item) = next_in_hand(&mut self.in_hand) {
                return Some(item);
            }
            match self.source.next() {
                Some(stream) => self.in_hand = Some(stream),
                None => return None,
            }
        }
    }

    ghost one_list = { λ stream xs ys. Flattened-one_list S.one_list S.Item.one_list stream.source stream.in_hand xs ys };

    ghost no_longer = { λ stream xs. Flattened-no_longer S.no_longer S.Item.no_longer S.Item.bounded stream.source stream.in_hand xs };

    ghost bounded = { λ stream xs. Flattened-bounded S.bounded S.Item.bounded stream.source stream.in_hand xs };
}
