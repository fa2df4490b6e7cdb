//! Laws of layouts: the octets of a layout spell its message, and `size` is the number of octets.

ghost use Rattle.std.specs.Prelude.{◌≡◌, ℕ, List, ◌<◌, ◌≤◌, ◌⊎◌, ◌↔◌, All, Option, length};
ghost use Rattle.dns_spec.specs.Reading.{Header, MessageQuestion, Spells};
ghost use Rattle.dns_spec.specs.Layout.{reach, Item, records_of, layout, message_of};
ghost use Rattle.dns_spec.specs.LayoutSize.{size};
ghost use Rattle.dns_spec.specs.Sharing.{Sharing};
ghost use Rattle.dns_spec.specs.UnboundedLayout.{unbounded_layout, unbounded_size};
ghost use Rattle.dns_spec.specs.Laws.{IsWritable, HasRoom};

/// The layout has `size` octets, whatever the header.
pub fn layout_has_its_size()
    ensures { (h : Header) (q : Option MessageQuestion) (items : List Item)
        → length (layout h q items) ≡ size q items }
{}

/// The layout, in which names share suffixes, spells its message, with or without a question (RFC
/// 1035 4.1.4), provided that the header and the question fit their fields and the sets are in the
/// order of their sections (`HasRoom`), the records fit a message (`IsWritable`), and the layout
/// has at most 65,535 octets.
pub fn layout_is_spelled()
    ensures { (h : Header) (q : Option MessageQuestion) (items : List Item) → HasRoom h q items
        → All IsWritable (records_of items) → size q items ≤ 65535
        → Spells (layout h q items) (message_of h q items) }
{}

/// If the layout or the unbounded layout has at most 16,384 octets, the two are the same.
pub fn layout_is_without_bound_within_reach()
    ensures { (h : Header) (q : Option MessageQuestion) (items : List Item)
        → (size q items ≤ reach) ⊎ (unbounded_size q items ≤ reach)
        → (layout h q items ≡ unbounded_layout h q items)
        × (size q items ≡ unbounded_size q items) }
{}

/// The unbounded layout has `unbounded_size` octets, whatever the header.
pub fn unbounded_layout_has_its_size()
    ensures { (h : Header) (q : Option MessageQuestion) (items : List Item)
        → length (unbounded_layout h q items) ≡ unbounded_size q items }
{}

/// The size of the layout is one of the sizes that sharing suffixes allows (RFC 1035 4.1.4).
pub fn size_is_possible()
    ensures { (q : Option MessageQuestion) (items : List Item) → Sharing q items (size q items) }
{}

/// A size of at most 16,384 octets that sharing suffixes allows is never smaller than the layout's
/// (RFC 1035 4.1.4). Beyond 16,384 octets, `Sharing` may allow smaller sizes, since it also shares
/// suffixes at places that no pointer reaches.
pub fn size_is_the_least()
    ensures { (q : Option MessageQuestion) (items : List Item) (z : ℕ)
        → Sharing q items z → z ≤ reach
        → size q items ≤ z }
{}

/// So, for a limit of at most 16,384 octets, the layout exceeds the limit if and only if every size
/// that sharing allows exceeds it.
pub fn layout_is_past_a_limit_where_all_sizes_are()
    ensures { (q : Option MessageQuestion) (items : List Item) (limit : ℕ) → limit ≤ reach
        → (limit < size q items) ↔ ((z : ℕ) → Sharing q items z → limit < z) }
{}
