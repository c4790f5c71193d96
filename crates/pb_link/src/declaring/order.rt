//! What the declarations of a pool's types make again.

ghost use Rattle.std.specs.Prelude.{◌≡◌, map};
ghost use Rattle.pb_schema.specs.Types.{Types};
ghost use Rattle.pb_schema.specs.Rules.{IsPool};
ghost use Rattle.pb_link_names.specs.Sees.{files_of};
ghost use Rattle.pb_link_rules.specs.Rules.{World};
ghost use Rattle.pb_link_rules.specs.Link.{IsWorldOf, NothingFails, LinkOk};
ghost use Rattle.pb_link.specs.PoolOf.{pool_of};
ghost use Rattle.pb_link.specs.ToDecls.{numbered, declared_head, declared_enum, decls_of};
ghost use Rattle.pb_link.specs.Heads.{declared_heads, declared_enums};

/// The declarations of a pool's types declare its messages in the pool's own order, each once, and no others but entry messages; its
/// enums in its order, each once, and no others; and their files, with what their imports name, are the pool's.
pub fn declared_order()
    ensures messages { (ts : Types) → IsPool ts
        → declared_heads (decls_of ts) ≡ map (λ m. declared_head ts m.0 m.1) (numbered ts) }
    ensures enums { (ts : Types) → IsPool ts → declared_enums (decls_of ts)
        ≡ map declared_enum ts.enums }
    ensures files { (ts : Types) → IsPool ts → files_of (decls_of ts) ≡ ts.files }
{}

/// The declarations of a pool's types link: every rule of linking holds of them, and linking them makes the types again.
pub fn declared_pool()
    ensures links { (ts : Types) → IsPool ts → LinkOk (decls_of ts) }
    ensures rules { (ts : Types) → IsPool ts → (w : World) → IsWorldOf (decls_of ts) w
        → NothingFails w }
    ensures types { (ts : Types) → IsPool ts → (w : World) → IsWorldOf (decls_of ts) w
        → pool_of (decls_of ts) w ≡ ts }
{}
