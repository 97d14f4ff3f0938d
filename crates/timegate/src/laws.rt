//! Laws that hold for all replies.
ghost use Rattle.std.specs.Prelude.{◌≡◌, ◌↔◌, ◌∷◌, [], ℕ, List, Option, Contains, codes, if◌then◌else◌};
ghost use Rattle.harvest_lattice.specs.Knowledge.{Harvested, lat};
ghost use Rattle.replica_exchange.specs.Stamps.{StampedState};
ghost use Rattle.replica_exchange.specs.declared.cursor.Cursor.{Cursor};
ghost use Rattle.timegate.specs.declared.request.Request.{Request};
ghost use Rattle.timegate.specs.declared.route.Route.TheVariants.{Delta, TimeGate, Page};
ghost use Rattle.timegate.specs.Redirect.{Redirects, IsGateReply};
ghost use Rattle.timegate.specs.Reply.{reply, reply_of};
ghost use Rattle.timegate.specs.Route.{AsksDelta, AsksPage, IsOfTaken, is_timegate, route_of};
ghost use Rattle.timegate.specs.Promises.{as_get, without_body, vary_values, AreInOrder};

/// Unless a delta is asked for, a reply is determined by the state of the harvests that were taken.
pub fn replies_from_state()
    ensures { (base : List ℕ) (known : List Harvested) (s : StampedState) (q : Request)
        → s.entries ≡ lat known → IsOfTaken q → reply_of base s q ≡ reply base known q }
{}

/// The same harvests, in any order and however often, give the same reply to every request that asks for no delta. A
/// delta also tells by which merges the harvests came; in its place, `reply` has a delta that tells of none.
pub fn same_harvests_same_reply()
    ensures { (base : List ℕ) (known others : List Harvested) → ((h : Harvested) → Contains known h ↔ Contains others h)
        → (q : Request) → reply base known q ≡ reply base others q }
{}

/// A TimeGate redirects if any memento of the original is shown, and is not found if none is. Each redirect names a
/// memento of the latest harvests of the original, which are those not older than the greatest whole revision of their
/// archive. None of their mementos is nearer to the second that is asked for; if no second is asked for, none is later.
/// Nothing else redirects.
pub fn redirects_name_the_nearest()
    ensures timegates { (base : List ℕ) (known : List Harvested) (q : Request) (original : List ℕ) (asked : Option ℕ)
        → route_of q ≡ TimeGate original asked → IsGateReply known original asked (reply base known q) }
    ensures redirects { (base : List ℕ) (known : List Harvested) (q : Request) → (reply base known q).status ≡ 302
        → (original : List ℕ) × (asked : Option ℕ) × (route_of q ≡ TimeGate original asked)
        × Redirects known original asked (reply base known q) }
    ensures alone { (base : List ℕ) (s : StampedState) (q : Request) → (reply_of base s q).status ≡ 302
        → (original : List ℕ) × (asked : Option ℕ) × (route_of q ≡ TimeGate original asked) }
{}

/// `HEAD` is answered like `GET`, without the body.
pub fn head_is_get_without_body()
    ensures { (base : List ℕ) (s : StampedState) (q : Request) → q.method ≡ codes "HEAD"
        → reply_of base s q ≡ without_body (reply_of base s (as_get q)) }
{}

/// A reply has one `Vary`, with `accept-datetime`, if the target is a TimeGate's, and otherwise none.
pub fn timegates_vary()
    ensures { (base : List ℕ) (s : StampedState) (q : Request)
        → vary_values (reply_of base s q).headers ≡ (if is_timegate q then codes "accept-datetime" ∷ [] else []) }
{}

/// The headers stand in the order of `Header`, and none twice.
pub fn headers_stand_in_order()
    ensures { (base : List ℕ) (s : StampedState) (q : Request) → AreInOrder (reply_of base s q).headers }
{}

/// `/delta` asks for the delta from no cursor, and `/delta/I/N` for the delta from the cursor of incarnation I and
/// number N, both of them decimals. No other request asks for a delta.
pub fn deltas_stand_at_their_cursors()
    ensures { (q : Request) (cursor : Option Cursor) → (route_of q ≡ Delta cursor) ↔ AsksDelta q cursor }
{}

/// `/timemap/link/page/K/` followed by a text that names an original asks for page K of that original's TimeMap, where
/// K is a decimal. No other request asks for a page.
pub fn pages_stand_at_their_numbers()
    ensures { (q : Request) (number : ℕ) (original : List ℕ) → (route_of q ≡ Page number original)
        ↔ AsksPage q number original }
{}
