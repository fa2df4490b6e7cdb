mod building;
mod printing;
mod walking;
