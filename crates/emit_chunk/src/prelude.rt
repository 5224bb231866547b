// The text that every entry file begins with.
ghost use Rattle.std.specs.Prelude.{◌≡◌};
ghost use Rattle.emit_chunk.specs.Runtime as spec;

/// The runtime text.
const RUNTIME: &[u8] = b"(() => {\n\
\"use strict\";\n\
const defs = new Map(), mods = new Map(), asked = new Map(), wait = new Map();\n\
const groups = new Map(), hashes = new Map(), frames = [], stack = [];\n\
const base = document.currentScript.src.replace(/[^/]*$/, \"\");\n\
const mod = (id) => {\n\
if (!mods.has(id)) mods.set(id, { s: 0, linked: false, cells: Object.create(null), space: Object.create(null), cjs: null, run: null, error: null, at: 0, low: 0 });\n\
return mods.get(id);\n\
};\n\
const add = (list) => { for (const d of list) if (!defs.has(d[0])) defs.set(d[0], d); };\n\
const fill = (o, g) => { for (let k = 0; k < g.length; k += 2) Object.defineProperty(o, g[k], { enumerable: true, get: g[k + 1] }); };\n\
const link = (first) => {\n\
const todo = [first];\n\
while (todo.length) {\n\
const id = todo.pop(), m = mod(id), d = defs.get(id);\n\
if (m.linked) continue;\n\
m.linked = true;\n\
if (d[1]) { const f = d[3]; m.run = f(r); m.run.next(); }\n\
todo.push(...d[2]);\n\
}\n\
};\n\
const go = (id) => {\n\
const m = mod(id), d = defs.get(id), from = frames[frames.length - 1];\n\
if (m.error) throw m.error[0];\n\
if (m.s === 0) {\n\
m.s = 1;\n\
m.at = m.low = stack.push(m);\n\
frames.push(m);\n\
try {\n\
if (d[1]) m.run.next();\n\
else { m.cjs = { exports: {}, id: id }; const f = d[3]; f.call(m.cjs.exports, m.cjs, m.cjs.exports, r); }\n\
} catch (x) {\n\
while (stack.length >= m.at) stack.pop().error = [x];\n\
throw x;\n\
} finally { frames.pop(); }\n\
if (m.low === m.at) while (stack.length >= m.at) stack.pop().s = 2;\n\
}\n\
if (from && m.s === 1 && m.low < from.low) from.low = m.low;\n\
};\n\
const load = (c) => {\n\
if (!asked.has(c)) asked.set(c, new Promise((yes, no) => {\n\
const e = document.createElement(\"script\");\n\
wait.set(c, yes);\n\
e.onerror = () => { asked.delete(c); no(new Error(\"chunk \" + c)); };\n\
e.src = base + c + \".\" + hashes.get(c) + \".js\";\n\
document.head.appendChild(e);\n\
}));\n\
return asked.get(c);\n\
};\n\
const enter = (id, cs) => Promise.all(cs.map(load)).then(() => { link(id); go(id); return r.s(id); });\n\
const r = (id) => { go(id); return defs.get(id)[1] ? mod(id).space : mod(id).cjs.exports; };\n\
r.e = go;\n\
r.m = (id) => mod(id).cells;\n\
r.c = (id, g) => fill(mod(id).cells, g);\n\
r.n = (id, g) => fill(mod(id).space, g);\n\
r.w = (id) => { if (!mod(id).cjs) throw new ReferenceError(\"module \" + id); return mod(id).cjs.exports; };\n\
r.i = (id) => { const x = r.w(id); return x && x.__esModule ? x.default : x; };\n\
r.s = (id) => defs.get(id)[1] ? mod(id).space : Object.assign(Object.create(null), r.w(id), { default: r.i(id) });\n\
r.d = (id) => enter(id, groups.get(id));\n\
globalThis.__webpack_chunk__ = (c, list) => { add(list); if (wait.has(c)) wait.get(c)(); };\n\
globalThis.__webpack_start__ = (t, list) => {\n\
for (const [id, ...cs] of t.g.slice(1)) groups.set(id, cs);\n\
for (const [c, h] of t.c) hashes.set(c, h);\n\
add(list);\n\
enter(t.g[0][0], t.g[0].slice(1));\n\
};\n\
})();\n";

/// The text that every entry file begins with: it keeps the factories, links and evaluates modules, and loads chunks.
#[tactic(auto, unfolding(crate::specs::Runtime::runtime))]
pub fn runtime() -> &'static [u8]
    ensures { result.now ≡ spec.runtime }
{
    RUNTIME
}
