//! Plans, and the areas of their outputs.
ghost use Rattle.std.specs.Prelude.{◌≡◌, ◌<◌, ◌≤◌, ◌+◌, ◌^◌, ◌≤ℤ◌, max, map, neg_ℤ, pos, ℕ, true, length, get_or, slice_get, Some, None, All, IfOk, IfSome, IsTrue, OnOk, IsSomeAnd, List};
ghost use Rattle.half_grid.specs.Trapezoids.{IsLegal, IsShot, Trapezoid};
ghost use Rattle.half_grid.specs.Windows.{RowRange};
ghost use Rattle.half_grid.specs.declared.plane.Tile.{Tile};
ghost use Rattle.deck_text.specs.Sound.{IsSound, IsSoundStep};
ghost use Rattle.cell_tree.specs.Boxes.{IsUpTo};
ghost use Rattle.deck_plan.specs.Bounds.{HasCornersUpTo, IsTileUpTo};
ghost use Rattle.deck_plan.specs.Lists.{HasArea, IsJoinedSomewhere, IsListed, list_at};
ghost use Rattle.bool_ops.specs.Operations.{IsInRows, IsJoinedOf};
ghost use Rattle.deck_plan.specs.Areas.{IsInOutput, IsInBand, IsInStep};
ghost use Rattle.deck_plan.specs.Needs.{IsBand, IsAskedBand, IsNeeded};
ghost use Rattle.layout_model.specs.declared.pair.Pair.{Pair as APair};
ghost use Rattle.cell_tree.specs.Flattening.{IsInLayer, shape_count};
ghost use Rattle.deck_plan.specs.Halos.{AreHalos};
ghost use Rattle.deck_plan.specs.Ready.{AreHeld, IsHeld, IsReady, ends_at};
ghost use Rattle.deck_plan.specs.OwnLayers.{own_layers, IsLeftOut};
ghost use Rattle.deck_plan.specs.Plans.{planned, IsRead, IsBandOf, CountsPieces};

use crate::cutting::cut_parts;
use crate::extents::Extents;
use crate::layers::{layer_area, layers_area};
use crate::lists::{let_go, list, take_list};
use crate::moving::kept_operand;
use crate::needs::{Needs, operands_of, step_at};
use crate::own_layers::{Layers, own_layers};
use crate::sizing::{grown_area, shrunk_area};
use crate::steps::{combined_area, inverted_area, mirrored_area};
use crate::windows::no_rows;
use bool_ops::Op;
use cell_tree::Tree;
use deck_text::{Deck, Step};
use flat_walk::{Boxes, Parts};
use geo_stream::NoMemory;
use half_grid::{Trap, Window};
use std::alloc::Global;
use std::marker::Model;

/// A deck with a layout's tree, ready for the areas of the deck's outputs. Contracts see the deck, and the layout's cells
/// with the number of the top cell.
#[derive(Drop)]
pub struct Plan<'t> {
    deck: &'t Deck,
    tree: &'t Tree,
    parts: Parts<'t>,
    boxes: Boxes,
}

impl<'t> Model for Plan<'t> {
    ghost use Rattle.deck_plan.specs.Plans.{Planned, planned, IsRead, AreAllCut};
    ghost use Rattle.flat_walk.specs.Boxes.{AreAllBoxed};

    ghost Value = { Planned };

    ghost view = { λ plan. planned plan.deck.now plan.tree.now };

    ghost invariant = { λ plan. IsRead plan.deck.now × AreAllCut plan.tree.now.layout.cells plan.tree.now.top plan.parts × AreAllBoxed plan.tree.now.layout.cells plan.tree.now.top plan.parts plan.boxes };
}

impl<'t> Plan<'t> {
    /// The plan of a deck over a layout's tree. The deck is one that was read. Only memory that runs out refuses it.
    ///
    /// Each shape is cut into its pieces here, once, and a box is put round them, and round what each placement shows.
    pub fn new(alloc: Global, deck: &'t Deck, tree: &'t Tree) -> Result<Plan<'t>, NoMemory>
        requires { IsRead deck.now }
        ensures { IfOk result (λ plan. plan ≡ planned deck.now tree.now) }
    {
        let parts = cut_parts(alloc, tree)?;
        let boxes = Boxes::of(alloc, tree, &parts)?;
        Ok(Plan {
            deck,
            tree,
            parts,
            boxes,
        })
    }

    /// Its deck, which is one that was read.
    pub fn deck(&self) -> &Deck
        ensures value { result.now ≡ self.now.deck }
        ensures read { IsRead self.now.deck }
        ensures sound { (layout_name deck_name : List ℕ) × IsSound layout_name deck_name self.now.deck }
    {
        self.deck
    }

    /// About how many trapezoids the layout has: its flattened shapes, or the pieces of the shapes of its cells where these
    /// are more. It is for speed alone.
    pub fn weight(&self) -> u64
        ensures { (pieces : ℕ) × CountsPieces self.now pieces × (result ≡ max (shape_count self.now.cells self.now.top) pieces) }
    {
        self.tree.shape_count().max(self.piece_count())
    }

    /// How many pieces the shapes of the layout's cells have, each once, wherever their cells are placed: 2^64 - 1 where
    /// there are more. It is for speed alone.
    pub fn piece_count(&self) -> u64
        ensures { CountsPieces self.now result }
    {
        self.parts.count()
    }

    // The definition that an output names.
    fn named(&self, output: usize) -> usize
        requires { output < length self.now.deck.outputs }
        ensures named { IsSomeAnd (slice_get self.now.deck.outputs output) (λ output. output.name ≡ result) }
        ensures inside { result < length self.now.deck.steps }
    {
        self.deck().outputs.as_slice()[output].name
    }

    /// A window outside of which the output's area is empty, within `2^31` of 0. Where the area is empty it may have no
    /// rows.
    pub fn rows(&self, output: usize) -> Window
        requires { output < length self.now.deck.outputs }
        ensures outside { (t : Tile) → IsInOutput self.now.cells self.now.top self.now.deck output t → IsInRows result t }
        ensures low { neg_ℤ (pos 2147483648) ≤ℤ result.y0 }
        ensures high { result.y1 ≤ℤ pos 2147483648 }
    {
        let named = self.named(output);
        let extents = Extents::of(self.deck(), self.tree, named + 1);
        match extents.by_name[named] {
            Some(window) => window,
            None => no_rows(),
        }
    }

    /// The rows of a definition on which the output's area in the band depends: the window of the definition in the least
    /// family that is enough for the band. It has no rows where the output doesn't use the definition. The band has rows,
    /// and lies within reach.
    pub fn needs(&self, output: usize, name: usize, band: Window) -> Window
        requires output { output < length self.now.deck.outputs }
        requires name { name < length self.now.deck.steps }
        requires band { IsBand band }
        ensures { IsSomeAnd (slice_get self.now.deck.outputs output) (λ output. IsNeeded self.now.deck output.name band name result) }
    {
        let named = self.named(output);
        Needs::of(self.deck(), named).window(name, band)
    }

    /// The joined list, in the band, of the part of the output's area in the band. The band has rows, 16,777,216 at most,
    /// and lies within reach. Only memory that runs out refuses it.
    pub fn area(&self, alloc: Global, output: usize, band: Window) -> Result<Vec<Trap>, NoMemory>
        requires output { output < length self.now.deck.outputs }
        requires band { IsAskedBand band }
        ensures shots { IfOk result (λ traps. All IsShot traps.items) }
        ensures joined { IfOk result (λ traps. IsJoinedOf band (IsInBand self.now.cells self.now.top self.now.deck output band) traps.items) }
    {
        self.layers_are_near();
        let named = self.named(output);
        let needs = Needs::of(self.deck(), named);
        let mut areas = Vec::new(alloc);
        while areas.len() < named {
            self.put_next(alloc, &needs, &mut areas, band)?;
        }
        self.next_list(alloc, &needs, &mut areas, band)
    }

    // The area of a step in the window, by lists of the areas of its operands.
    fn step_area(
        &self,
        alloc: Global,
        step: &Step,
        areas: &[Vec<Trap>],
        window: Window,
    ) -> Result<Vec<Trap>, NoMemory>
        requires sound { IsSoundStep self.now.deck.frame (length areas.now) step.now }
        requires legal { (a : ℕ) → All IsLegal (list_at (map (λ list. list.items) areas.now) a) }
        requires joined { (a : ℕ) → IsJoinedSomewhere (list_at (map (λ list. list.items) areas.now) a) }
        requires near { (a : ℕ) → All (HasCornersUpTo (2 ^ 42)) (list_at (map (λ list. list.items) areas.now) a) }
        requires low { IsUpTo (2 ^ 50) window.y0 }
        requires high { IsUpTo (2 ^ 50) window.y1 }
        ensures { IfOk result (λ traps. HasArea window (λ t. IsInStep self.now.cells self.now.top self.now.deck.frame (IsListed (map (λ list. list.items) areas.now)) step.now t) traps.items) }
    {
        match step {
            Step::Layer(pair) => {
                layer_area(alloc, self.tree, &self.parts, &self.boxes, *pair, window)
            },
            Step::Or(a, b) => combined_area(
                alloc,
                Op::Or,
                list(areas, *a),
                list(areas, *b),
                window,
            ),
            Step::And(a, b) => combined_area(
                alloc,
                Op::And,
                list(areas, *a),
                list(areas, *b),
                window,
            ),
            Step::Sub(a, b) => combined_area(
                alloc,
                Op::Sub,
                list(areas, *a),
                list(areas, *b),
                window,
            ),
            Step::Xor(a, b) => combined_area(
                alloc,
                Op::Xor,
                list(areas, *a),
                list(areas, *b),
                window,
            ),
            Step::Grow(a, dx, dy) => grown_area(alloc, list(areas, *a), *dx, *dy, window),
            Step::Shrink(a, dx, dy) => shrunk_area(alloc, list(areas, *a), *dx, *dy, window),
            Step::Invert(a) => match self.deck().frame {
                Some(frame) => inverted_area(alloc, &frame, list(areas, *a), window),
                None => unreachable!(),
            },
            Step::Mirror(a, m) => mirrored_area(alloc, list(areas, *a), *m, window),
        }
    }

    // The tiles of each layer are within 2^30 of 0. It costs nothing.
    fn layers_are_near(&self)
        ensures { (pair : APair) (t : Tile) → IsInLayer self.now.cells self.now.top pair t → IsTileUpTo (2 ^ 30) t }
    {
        let _cells = self.tree.cells();
    }

    /// The output's area has a joined list in each band within reach, whether memory suffices for the list or not. It costs
    /// nothing.
    pub fn has_lists(&self, output: usize)
        requires { output < length self.now.deck.outputs }
        ensures { (band : RowRange) → IsBand band → (traps : List Trapezoid) × IsBandOf self.now output band traps }
    {
        self.layers_are_near();
        let _deck = self.deck();
        let _named = self.named(output);
    }

    // The layers of a definition that sweeps over these itself.
    fn own_layers(&self, needs: &Needs, number: usize) -> Option<Layers>
        requires { number < length self.now.deck.steps }
        ensures { result ≡ own_layers self.now.deck.steps needs.now.by_name number }
    {
        own_layers(needs, self.deck().steps.as_slice(), number)
    }

    // Whether no list of a definition is taken, since the one that takes it sweeps over its layers itself.
    fn is_left_out(&self, needs: &Needs, number: usize) -> bool
        requires { (name : ℕ) × (number ≤ name) × (name < length self.now.deck.steps) × AreHalos self.now.deck name 0 needs.now.by_name }
        ensures { IsTrue result → IsLeftOut self.now.deck needs.now.by_name number }
    {
        let Some(need) = needs.by_name[number] else {
            return false;
        };
        if need.shared {
            return false;
        }
        self.own_layers(needs, need.last).is_some()
    }

    // The area of a definition that sweeps over its layers itself, in the rows that are needed of it, or an empty list where
    // none are.
    fn layers_area(
        &self,
        alloc: Global,
        needs: &Needs,
        layers: Layers,
        number: usize,
        band: Window,
    ) -> Result<Vec<Trap>, NoMemory>
        requires band { IsBand band }
        requires named { (name : ℕ) × (number ≤ name) × (name < length self.now.deck.steps) × AreHalos self.now.deck name 0 needs.now.by_name }
        requires layers { own_layers self.now.deck.steps needs.now.by_name number ≡ Some layers }
        ensures { IfOk result (λ traps. IsReady self.now.cells self.now.top self.now.deck band needs.now.by_name number traps.items) }
    {
        let _deck = self.deck();
        match needs.by_name[number] {
            Some(_need) => {
                let window = needs.window(number, band);
                layers_area(alloc, self.tree, &self.parts, &self.boxes, layers, window)
            }
            None => Ok(Vec::new(alloc)),
        }
    }

    // The area of the next definition in the rows that are needed of it, or an empty list where none are.
    fn needed_area(
        &self,
        alloc: Global,
        needs: &Needs,
        areas: &[Vec<Trap>],
        band: Window,
    ) -> Result<Vec<Trap>, NoMemory>
        requires band { IsBand band }
        requires named { (name : ℕ) × (length areas.now ≤ name) × (name < length self.now.deck.steps) × AreHalos self.now.deck name 0 needs.now.by_name }
        requires lists { own_layers self.now.deck.steps needs.now.by_name (length areas.now) ≡ None }
        requires held { AreHeld self.now.cells self.now.top self.now.deck band needs.now.by_name (length areas.now) (map (λ list. list.items) areas.now) }
        ensures { IfOk result (λ traps. IsReady self.now.cells self.now.top self.now.deck band needs.now.by_name (length areas.now) traps.items) }
    {
        self.layers_are_near();
        let deck = self.deck();
        match needs.by_name[areas.len()] {
            Some(_need) => {
                let window = needs.window(areas.len(), band);
                let step = step_at(deck.steps.as_slice(), areas.len());
                self.step_area(alloc, &step, areas, window)
            }
            None => Ok(Vec::new(alloc)),
        }
    }

    // The operand of the next definition whose list is what is needed of that, where no later definition takes the operand.
    fn moved(&self, needs: &Needs, areas: &[Vec<Trap>], band: Window) -> Option<usize>
        requires band { IsBand band }
        requires named { (name : ℕ) × (length areas.now ≤ name) × (name < length self.now.deck.steps) × AreHalos self.now.deck name 0 needs.now.by_name }
        requires lists { own_layers self.now.deck.steps needs.now.by_name (length areas.now) ≡ None }
        requires held { AreHeld self.now.cells self.now.top self.now.deck band needs.now.by_name (length areas.now) (map (λ list. list.items) areas.now) }
        ensures inside { IfSome result (λ name. name < length areas.now) }
        ensures last { IfSome result (λ name. ends_at (get_or needs.now.by_name name None) (length areas.now) ≡ true) }
        ensures ready { IfSome result (λ name. IsReady self.now.cells self.now.top self.now.deck band needs.now.by_name (length areas.now) (list_at (map (λ list. list.items) areas.now) name)) }
    {
        let deck = self.deck();
        match needs.by_name[areas.len()] {
            Some(_need) => {
                let window = needs.window(areas.len(), band);
                let step = step_at(deck.steps.as_slice(), areas.len());
                kept_operand(needs, &step, areas, areas.len(), window)
            }
            None => None,
        }
    }

    // The list of the next definition. Where it takes two layers that no other does, it sweeps over these; where it is that of
    // an operand which no later definition takes, it is moved.
    fn next_list(
        &self,
        alloc: Global,
        needs: &Needs,
        areas: &mut Vec<Vec<Trap>>,
        band: Window,
    ) -> Result<Vec<Trap>, NoMemory>
        requires band { IsBand band }
        requires named { (name : ℕ) × (length areas.old.items ≤ name) × (name < length self.now.deck.steps) × AreHalos self.now.deck name 0 needs.now.by_name }
        requires held { AreHeld self.now.cells self.now.top self.now.deck band needs.now.by_name (length areas.old.items) (map (λ list. list.items) areas.old.items) }
        ensures same { length areas.new.items ≡ length areas.old.items }
        ensures ready { IfOk result (λ traps. IsReady self.now.cells self.now.top self.now.deck band needs.now.by_name (length areas.old.items) traps.items) }
        ensures held { AreHeld self.now.cells self.now.top self.now.deck band needs.now.by_name (length areas.old.items + 1) (map (λ list. list.items) areas.new.items) }
    {
        if let Some(layers) = self.own_layers(needs, areas.len()) {
            return self.layers_area(alloc, needs, layers, areas.len(), band);
        }
        match self.moved(needs, areas.as_slice(), band) {
            Some(name) => Ok(take_list(alloc, areas, name)),
            None => self.needed_area(alloc, needs, areas.as_slice(), band),
        }
    }

    // What stands for the next definition: its list, or an empty one where no list of it is taken.
    fn next_entry(
        &self,
        alloc: Global,
        needs: &Needs,
        areas: &mut Vec<Vec<Trap>>,
        band: Window,
    ) -> Result<Vec<Trap>, NoMemory>
        requires band { IsBand band }
        requires named { (name : ℕ) × (length areas.old.items < name) × (name < length self.now.deck.steps) × AreHalos self.now.deck name 0 needs.now.by_name }
        requires held { AreHeld self.now.cells self.now.top self.now.deck band needs.now.by_name (length areas.old.items) (map (λ list. list.items) areas.old.items) }
        ensures same { length areas.new.items ≡ length areas.old.items }
        ensures entry { IfOk result (λ traps. IsHeld self.now.cells self.now.top self.now.deck band needs.now.by_name (length areas.old.items + 1) (length areas.old.items) traps.items) }
        ensures held { AreHeld self.now.cells self.now.top self.now.deck band needs.now.by_name (length areas.old.items + 1) (map (λ list. list.items) areas.new.items) }
    {
        if self.is_left_out(needs, areas.len()) {
            return Ok(Vec::new(alloc));
        }
        self.next_list(alloc, needs, areas, band)
    }

    // Puts what stands for the next definition, and lets go of the lists that no later one takes.
    fn put_next(
        &self,
        alloc: Global,
        needs: &Needs,
        areas: &mut Vec<Vec<Trap>>,
        band: Window,
    ) -> Result<(), NoMemory>
        requires band { IsBand band }
        requires named { (name : ℕ) × (length areas.old.items < name) × (name < length self.now.deck.steps) × AreHalos self.now.deck name 0 needs.now.by_name }
        requires held { AreHeld self.now.cells self.now.top self.now.deck band needs.now.by_name (length areas.old.items) (map (λ list. list.items) areas.old.items) }
        ensures one { OnOk result (length areas.new.items ≡ length areas.old.items + 1) }
        ensures held { OnOk result (AreHeld self.now.cells self.now.top self.now.deck band needs.now.by_name (length areas.new.items) (map (λ list. list.items) areas.new.items)) }
    {
        let number = areas.len();
        let list = self.next_entry(alloc, needs, areas, band)?;
        areas.push(list)?;
        let step = step_at(self.deck().steps.as_slice(), number);
        let_go(alloc, areas, needs, operands_of(&step), number);
        Ok(())
    }
}
