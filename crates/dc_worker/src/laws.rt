// The laws of what is carried. Each is a function with nothing to do, whose contract is the law.
ghost use Rattle.std.specs.Prelude.{◌≡◌, ◌≢◌, ◌≤◌, ℕ, false, List, [], ◌++◌, Option};
ghost use Rattle.std.specs.List.{list_any};
ghost use Rattle.list_core.specs.Members.{In};
ghost use Rattle.dc_talk.specs.declared.sent.Sent.{Sent};
ghost use Rattle.dc_talk.specs.declared.links.Arrival.{Arrival};
ghost use Rattle.dc_talk.specs.declared.links.Arrival.TheVariants.{Whole};
ghost use Rattle.dc_talk.specs.declared.ask.Ask.TheVariants.{Send};
ghost use Rattle.dc_talk.specs.declared.line.Line.{Line};
ghost use Rattle.dc_talk.specs.declared.line.ShipEnd.{ShipEnd};
ghost use Rattle.dc_talk.specs.declared.log.Deed.{Deed};
ghost use Rattle.script_core.specs.Carrying.{Route, route, Detour, Sends, Ships, Relays, Tells, InTurn, Settles, is_news};
ghost use Rattle.script_core.specs.Links.{Inlet, wholes, arrivals, arrived, inlet_after};
ghost use Rattle.script_core.specs.Provenance.{WasSent, CarriesAll};
ghost use Rattle.script_core.specs.Rounds.{Brings, Mails, SenderDeeds, ReporterDeeds, PrunerDeeds, others, mailed};
ghost use Rattle.dc_worker.specs.Settled.{AreNumbered, Centres, IsAlike, PassesAmong, behind_deeds};

/// What the deeds of a carrier carry, an earlier one of them brought: a record that is delivered was in a centre's
/// answer to a send or a relay, and a vector that is taught in the answer of its centre to a report. That stays so with more
/// deeds in front of them, and of deeds behind one another.
pub fn law_carried()
    ensures sends { (r : Route) (last : Option ShipEnd) (after most : ℕ) (deeds : List Deed) (end : Option ShipEnd) → Sends r last (Send after most) deeds end → CarriesAll [] deeds }
    ensures ships { (r : Route) (deeds : List Deed) (end : Option ShipEnd) → Ships r deeds end → CarriesAll [] deeds }
    ensures relays { (t : Detour) (deeds : List Deed) (end : Option ShipEnd) → Relays t deeds end → CarriesAll [] deeds }
    ensures tells { (r : Route) (deeds : List Deed) (line : Option Line) → Tells r deeds line → CarriesAll [] deeds }
    ensures settles { (n : ℕ) (deeds : List Deed) → Settles n deeds → CarriesAll [] deeds }
    ensures mails { (r : Route) (deeds : List Deed) (items : List Sent) → Mails r deeds items → CarriesAll [] deeds }
    ensures sender { (n i : ℕ) (deeds : List Deed) → SenderDeeds n i deeds → CarriesAll [] deeds }
    ensures reporter { (n i : ℕ) (deeds : List Deed) → ReporterDeeds n i deeds → CarriesAll [] deeds }
    ensures pruner { (i round : ℕ) (deeds : List Deed) → PrunerDeeds i round deeds → CarriesAll [] deeds }
    ensures brings { (before : List Deed) (r : Route) (items : List (Arrival Sent)) (deeds : List Deed) → ((item : Sent) → In (Whole item) items → WasSent before item) → Brings r items deeds → CarriesAll before deeds }
    ensures more { (front before deeds : List Deed) → CarriesAll before deeds → CarriesAll (front ++ before) deeds }
    ensures both { (before ds es : List Deed) → CarriesAll before ds → CarriesAll (before ++ ds) es → CarriesAll before (ds ++ es) }
{}

/// What the deeds of a sender put on the link to a centre is what they sent for there: over one route just its items on
/// that one link, behind what was put before, and in a round on the link to each other centre its own. Each record of it
/// was in a centre's answer to a send.
pub fn law_mailed()
    ensures route { (r : Route) (deeds : List Deed) (items : List Sent) → Mails r deeds items → mailed r.to deeds ≡ items }
    ensures other { (r : Route) (deeds : List Deed) (items : List Sent) (j : ℕ) → Mails r deeds items → j ≢ r.to → mailed j deeds ≡ [] }
    ensures more { (r : Route) (ds es : List Deed) (items : List Sent) (j : ℕ) → Mails r es items → mailed j (ds ++ es) ≡ mailed j ds ++ mailed j es }
    ensures round { (n i : ℕ) (items : ℕ → List Sent) (deeds : List Deed) (j : ℕ) → InTurn (λ to deeds. Mails (route i to) deeds (items to)) (others n i) deeds → 1 ≤ j → j ≤ n → j ≢ i → mailed j deeds ≡ items j }
    ensures sent { (j : ℕ) (deeds : List Deed) (item : Sent) → In item (mailed j deeds) → WasSent deeds item }
{}

/// What arrives whole of records that come over a link, and what is held whole of them, was held before or is one of them.
/// What comes of records in one round and of others in the next is what comes of all of them in one.
pub fn law_links()
    ensures arrivals { (inlet : Inlet Sent) (items : List Sent) (item : Sent) → In (Whole item) (arrivals inlet items) → In item (wholes inlet.held ++ items) }
    ensures arrived { (inlet : Inlet Sent) (items : List Sent) (item : Sent) → In (Whole item) (arrived inlet items) → In item (wholes inlet.held ++ items) }
    ensures held { (inlet : Inlet Sent) (items : List Sent) (item : Sent) → In item (wholes (inlet_after inlet items).held) → In item (wholes inlet.held ++ items) }
    ensures arrivals_then { (inlet : Inlet Sent) (xs ys : List Sent) → arrivals inlet (xs ++ ys) ≡ arrived inlet xs ++ arrivals (inlet_after inlet xs) ys }
    ensures arrived_then { (inlet : Inlet Sent) (xs ys : List Sent) → arrived inlet (xs ++ ys) ≡ arrived inlet xs ++ arrived (inlet_after inlet xs) ys }
    ensures after_then { (inlet : Inlet Sent) (xs ys : List Sent) → inlet_after inlet (xs ++ ys) ≡ inlet_after (inlet_after inlet xs) ys }
{}

/// Where an actor makes a pass alone among centres, and nothing in it is news, each centre is left as it was, and
/// nothing is news in a pass that any actor makes alone behind it: it is the same pass again.
pub fn law_settled()
    ensures kept { (c : Centres) (actor : ℕ) (deeds : List Deed) → AreNumbered c → PassesAmong c actor deeds → list_any is_news deeds ≡ false → (i : ℕ) → IsAlike (c.settings i) ((behind_deeds c actor deeds).trails i) (c.trails i) }
    ensures same { (c : Centres) (actor again : ℕ) (first later : List Deed) → AreNumbered c → PassesAmong c actor first → list_any is_news first ≡ false → PassesAmong (behind_deeds c actor first) again later → later ≡ first }
    ensures quiet { (c : Centres) (actor again : ℕ) (first later : List Deed) → AreNumbered c → PassesAmong c actor first → list_any is_news first ≡ false → PassesAmong (behind_deeds c actor first) again later → list_any is_news later ≡ false }
{}
