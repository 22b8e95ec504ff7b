//! WINDOW entries, found by name, and windows with what they copy.

ghost use Rattle.std.specs.Prelude.{◌≡◌, ◌++◌, ◌∷◌, [], ℕ, List, Some, map, take, length, IfOk, OnOk};
ghost use Rattle.std.specs.Option.{option_copied};
ghost use Rattle.wquery.specs.QueryTree.{view_entry};
ghost use Rattle.wquery.specs.Tree.{keys, view_keys, view_window};
ghost use Rattle.wscope.specs.Windows.{NamedWindow, Expanded, keys_or, lent_frame, named_window, named_windows, optional_window};
ghost use Rattle.wscope.specs.Windows.{or_none, expand_tree, expand_all as expanded_entries, expanded_window, window_named};
ghost use Rattle.wscope.specs.Earlier.{seen, windows_in};
ghost use Rattle.wscope.specs.Indexes.{ArePlaces, copied_from, place_of, expanded_over, up_to};

use crate::earlier::Earlier;
use crate::full_window::{FullEntry, FullWindow};
use crate::window_index::WindowIndex;
use std::alloc::{AllocError, Global};
use std::collections::BTreeMap;
use wquery::{Frame, Key, Window, WindowEntry};

fn window_below<'a>(
    entries: &[FullEntry<'a>],
    place: usize,
    before: usize,
) -> Option<FullWindow<'a>>
    ensures { (name : List ℕ) → place_of name (named_windows entries.now) ≡ Some place
        → optional_window result ≡ window_named (take before (named_windows entries.now)) name }
{
    if place >= before {
        return None;
    }
    if place >= entries.len() {
        return None;
    }
    let entry = &entries[place];
    Some(entry.window)
}

fn window_of<'a>(entries: &[FullEntry<'a>], place: usize) -> Option<FullWindow<'a>>
    ensures { (name : List ℕ) → place_of name (named_windows entries.now) ≡ Some place
        → optional_window result ≡ window_named (named_windows entries.now) name }
{
    if place >= entries.len() {
        return None;
    }
    let entry = &entries[place];
    Some(entry.window)
}

fn window_at<'a>(
    entries: &[FullEntry<'a>],
    place: usize,
    before: Option<usize>,
) -> Option<FullWindow<'a>>
    ensures { (name : List ℕ) → place_of name (named_windows entries.now) ≡ Some place
        → optional_window result ≡ window_named (up_to before (named_windows entries.now)) name }
{
    match before {
        None => window_of(entries, place),
        Some(before) => window_below(entries, place, before),
    }
}

fn window_found<'a>(
    entries: &[FullEntry<'a>],
    found: Option<&usize>,
    before: Option<usize>,
) -> Option<FullWindow<'a>>
    ensures { (name : List ℕ) → option_copied found.entry ≡ place_of name (named_windows entries.now)
        → optional_window result ≡ window_named (up_to before (named_windows entries.now)) name }
{
    match found {
        None => None,
        Some(place) => window_at(entries, *place, before),
    }
}

fn find_in<'a>(
    entries: &[FullEntry<'a>],
    places: &BTreeMap<String, usize>,
    before: Option<usize>,
    name: &str,
) -> Option<FullWindow<'a>>
    requires { ArePlaces places.now (named_windows entries.now) }
    ensures { optional_window result ≡ window_named (up_to before (named_windows entries.now)) name.now }
{
    window_found(entries, places.get(name), before)
}

fn own_keys_or<'a>(own: &'a [Key], copied: &'a [Key]) -> &'a [Key]
    ensures { keys (view_keys result.now) ≡ keys_or (keys (view_keys own.now)) (keys (view_keys copied.now)) }
{
    if own.is_empty() { copied } else { own }
}

fn own_frame<'a>(frame: &'a Option<Frame>) -> Option<&'a Frame>
    ensures { lent_frame result ≡ frame.now }
{
    match frame {
        None => None,
        Some(own) => Some(own),
    }
}

fn or_empty<'a>(found: Option<FullWindow<'a>>) -> FullWindow<'a>
    ensures { expanded_window result ≡ or_none (optional_window found.entry) }
{
    match found {
        Some(window) => window,
        None => FullWindow {
            partition: &[],
            order: &[],
            frame: None,
        },
    }
}

// A window over the one that it copies, if it names one.
#[tactic(auto, unfolding(wquery::specs::Tree::view_window, wquery::specs::Tree::view, wquery::specs::Tree::view_key))]
fn expand_over<'a>(found: Option<FullWindow<'a>>, window: &'a Window) -> FullWindow<'a>
    ensures { expanded_window result ≡ expanded_over (optional_window found.entry) (view_window window.now) }
{
    let frame = own_frame(&window.frame);
    let Some(name) = &window.copied else {
        return FullWindow {
            partition: window.partition.as_slice(),
            order: window.order.as_slice(),
            frame,
        };
    };
    let _name = name.as_str();
    let copied = or_empty(found);
    FullWindow {
        partition: copied.partition,
        order: own_keys_or(window.order.as_slice(), copied.order),
        frame,
    }
}

// Gives a name its place, if no earlier window has it.
fn add_place(
    alloc: Global,
    places: &mut BTreeMap<String, usize>,
    name: &str,
    place: usize,
) -> Result<(), AllocError>
    ensures { (ws : List NamedWindow) (window : Expanded) → place ≡ length ws → ArePlaces places.old ws
        → OnOk result (ArePlaces places.new (ws ++ record { name = name.now; window = window } ∷ [])) }
{
    if places.contains_key(name) {
        return Ok(());
    }
    let key = String::from_str(alloc, name)?;
    places.insert(key, place)?;
    Ok(())
}

#[tactic(auto, unfolding(wquery::specs::Tree::view_window))]
fn copied_of<'a>(
    entries: &[FullEntry<'a>],
    places: &BTreeMap<String, usize>,
    window: &Window,
) -> Option<FullWindow<'a>>
    requires { ArePlaces places.now (named_windows entries.now) }
    ensures { optional_window result ≡ copied_from (named_windows entries.now) (view_window window.now).copied }
{
    match &window.copied {
        None => None,
        Some(name) => find_in(entries, places, None, name.as_str()),
    }
}

fn expand_entry<'a>(
    entries: &[FullEntry<'a>],
    places: &BTreeMap<String, usize>,
    entry: &'a WindowEntry,
) -> FullEntry<'a>
    requires { ArePlaces places.now (named_windows entries.now) }
    ensures { named_window result ≡ record {
      name = (view_entry entry.now).name;
      window =
          expand_tree (named_windows entries.now) (view_entry entry.now).window;
    } }
{
    let found = copied_of(entries, places, &entry.window);
    let window = expand_over(found, &entry.window);
    FullEntry {
        name: entry.name.as_str(),
        window,
    }
}

impl<'a> WindowIndex<'a> {
    /// The WINDOW entries with what they copy, each from the entries before it.
    pub(crate) fn new(
        alloc: Global,
        entries: &'a [WindowEntry],
    ) -> Result<WindowIndex<'a>, AllocError>
        ensures { IfOk result (λ made. windows_in made ≡ expanded_entries [] (map view_entry entries.now)) }
    {
        let mut made = Vec::with_capacity(alloc, entries.len())?;
        let mut places = BTreeMap::new(alloc);
        'entries: for entry in entries {
            let next = expand_entry(made.as_slice(), &places, entry);
            add_place(alloc, &mut places, next.name, made.len())?;
            made.push(next)?;
        }
        Ok(WindowIndex {
            entries: made,
            places,
        })
    }

    /// The entries before a place.
    pub fn before<'b>(&'b self, place: usize) -> Earlier<'a, 'b>
        ensures { seen result ≡ take place (windows_in self.now) }
    {
        Earlier {
            index: self,
            before: Some(place),
        }
    }
}

impl<'a, 'b> Earlier<'a, 'b> {
    /// The first of these windows that has this name.
    pub fn find(self, name: &str) -> Option<FullWindow<'a>>
        ensures { optional_window result ≡ window_named (seen self.entry) name.now }
    {
        let index = self.index;
        find_in(index.entries.as_slice(), &index.places, self.before, name)
    }

    #[tactic(auto, unfolding(wquery::specs::Tree::view_window))]
    fn find_copied(self, window: &Window) -> Option<FullWindow<'a>>
        ensures { optional_window result ≡ copied_from (seen self.entry) (view_window window.now).copied }
    {
        match &window.copied {
            None => None,
            Some(name) => self.find(name.as_str()),
        }
    }

    /// A window with what it copies from these.
    pub fn expanded(self, window: &'a Window) -> FullWindow<'a>
        ensures { expanded_window result ≡ expand_tree (seen self.entry) (view_window window.now) }
    {
        let found = self.find_copied(window);
        expand_over(found, window)
    }
}
